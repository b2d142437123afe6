// What holds of every verdict.
ghost use Rattle.sheet_check.specs.Laws.{EachTextHasOneVerdict, OtherPlacesAreNotTrue, SheetsAreTrue};

use sheet_reader::{iterations_say_their_places, sheets_are_read_back};
use sheet_text::sheets_are_unique;

/// Each text has one verdict by the same terms.
pub fn verdicts_are_unique()
    ensures { EachTextHasOneVerdict }
{
    sheets_are_unique();
}

/// The verdict on the sheet of a count is that it is true by the terms of the count, and by no other places.
pub fn sheets_are_true()
    ensures by_its_terms { SheetsAreTrue }
    ensures by_no_other_places { OtherPlacesAreNotTrue }
{
    sheets_are_read_back();
    iterations_say_their_places();
}
