// What holds of every sheet that is read.
ghost use Rattle.sheet_reader.specs.Laws.{FormSaysItsValues, IterationsSayTheirPlaces, NoIterationSaysNoPlaces, WrittenValuesAreRead, SheetsHaveTheForm, SheetsAreReadBack};

use meek_count::{counts_are_unique, rows_stay_in_range};

/// A text with the form of a sheet says its values: what was written into it is what is read of it.
pub fn written_values_are_read()
    ensures values { FormSaysItsValues }
    ensures read { WrittenValuesAreRead }
{}

/// A text that is the sheet of iterations says its number of places; one without any is a sheet of each.
pub fn iterations_say_their_places()
    ensures places { IterationsSayTheirPlaces }
    ensures none { NoIterationSaysNoPlaces }
{}

/// The sheet of an election has the form of a sheet, and is read back as the iterations and the last
/// states of the election's count.
pub fn sheets_are_read_back()
    ensures form { SheetsHaveTheForm }
    ensures read { SheetsAreReadBack }
{
    counts_are_unique();
    rows_stay_in_range();
}
