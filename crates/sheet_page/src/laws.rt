// What holds of every page, of every round, of every table and of all JSON.
ghost use Rattle.sheet_page.specs.PageLaws.{PagesHaveTheirIterations, PagesHaveTheirRounds, PagesListTheirElected, PicturesAreSmall};
ghost use Rattle.sheet_page.specs.SentenceLaws.{PagesSayTheirDecisions};
ghost use Rattle.sheet_page.specs.Laws.{JsonSaysItsSheet, PagesNest, RisingRoundsAreWhole, SheetsAreJson, StringsAreReadBack, TablesAreReadBack, TablesSayTheirSheets, TextsSayOneThing};

use csv_text::csv_laws;
use page_tree::page_laws;

/// The elements of every page nest, and each is closed. The call does nothing.
pub fn pages_nest()
    ensures { PagesNest }
{
    page_laws();
}

/// A page lists each candidate that an iteration elected, with its round, and each that took a seat at the
/// end; it has a link, a part and a column of the table for each round, and a line of the table for each
/// candidate; in the parts each iteration once, with the candidates that it concerns, and the sentences of
/// what it decided. The call does nothing.
pub fn pages_say_their_sheets()
    ensures elected { PagesListTheirElected }
    ensures rounds { PagesHaveTheirRounds }
    ensures iterations { PagesHaveTheirIterations }
    ensures decisions { PagesSayTheirDecisions }
{}

/// No picture of a page has more than 24 bars: of more candidates who stand in a round those with the fewest
/// votes have none, and are summed in words. The call does nothing.
pub fn pictures_are_small()
    ensures { PicturesAreSmall }
{}

/// Where the numbers of rounds never fall, as in every count, the part of a round has all iterations of
/// its number. The call does nothing.
pub fn rising_rounds_are_whole()
    ensures { RisingRoundsAreWhole }
{}

/// The table of a sheet is read back as its records, and these say every iteration as it was, with the
/// names and the last states: sheets that differ in them have different tables. The call does nothing.
pub fn tables_are_read_back()
    ensures records { TablesAreReadBack }
    ensures values { TablesSayTheirSheets }
{
    csv_laws();
}

/// A string of JSON is read back as its text, and it ends where the reader says. The call does nothing.
pub fn strings_are_read_back()
    ensures { StringsAreReadBack }
{}

/// What is written of a sheet is JSON, and says what the sheet says: its title and numbers, each candidate
/// with its outcome, and every iteration. A text of JSON says one thing, so this is read back from it. Sheets
/// that differ have different texts, unless only bytes that are no UTF-8 differ in a title or a name. The
/// call does nothing.
pub fn sheets_are_json()
    ensures texts { SheetsAreJson }
    ensures one_thing { TextsSayOneThing }
    ensures values { JsonSaysItsSheet }
{}
