// What holds of every page, of all JSON and of every table of a day.
ghost use Rattle.day_page.specs.Laws.{DayPagesNest, DaysAreJson, JsonSaysItsDay, PagesHaveTheirFreezes, PagesSayTheirCalls, PagesSayTheirEnd, PagesSayTheirSheets, PagesShowTheirSheets, RowsSayTheirCalls, TablesOfCallsAreReadBack};

use batch_core::lawful_calls_leave_lawful_batches;
use csv_text::csv_laws;
use page_tree::page_laws;
use sheet_page::sheets_are_json;

/// The elements of every page of a day nest, and each is closed.
pub fn day_pages_nest()
    ensures { DayPagesNest }
{
    page_laws();
}

/// The rows of the table of a page are the lines of the calls, as the text of the day has them; its part of the end says
/// what the book has of each batch that was entered, and who was struck; and each freeze has its part, the office's own
/// first, which says and shows of its sheet what the page of the sheet does. The call does nothing.
pub fn pages_say_their_days()
    ensures calls { PagesSayTheirCalls }
    ensures end { PagesSayTheirEnd }
    ensures freezes { PagesHaveTheirFreezes }
    ensures sheets { PagesSayTheirSheets }
    ensures shown { PagesShowTheirSheets }
{}

/// What is written of a day is JSON, and says what the day says: each call with its answer, each batch that was
/// entered, who is struck, and each freeze with its sheet. A text of JSON says one thing, so this is read back from
/// it. The call does nothing.
pub fn days_are_json()
    ensures texts { DaysAreJson }
    ensures values { JsonSaysItsDay }
{
    lawful_calls_leave_lawful_batches();
    sheets_are_json();
}

/// The table of a day is read back as its head and the rows of the calls, and these are the lines of the calls, as
/// the text of the day has them. The call does nothing.
pub fn tables_of_calls_are_read_back()
    ensures rows { TablesOfCallsAreReadBack }
    ensures lines { RowsSayTheirCalls }
{
    csv_laws();
}
