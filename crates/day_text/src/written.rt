// What holds of the text of every day that is run.
ghost use Rattle.day_text.specs.Written.{HistoriesHaveTheForm, HistoriesAreReadBack};
ghost use Rattle.day_text.specs.Owed.{OwedTextsHaveTheForm, OwedTextsAreReadBack};

use crate::written_days_are_read;
use sheet_reader::sheets_are_read_back;

/// The text of a history has the form, and is read back as the history's calls and replies and the counts
/// of its freezes.
pub fn days_are_read_back()
    ensures form { HistoriesHaveTheForm }
    ensures read { HistoriesAreReadBack }
{
    written_days_are_read();
    sheets_are_read_back();
}

/// Whatever text `day` owes of an input has the form, and is read back so.
pub fn owed_days_are_read_back()
    ensures form { OwedTextsHaveTheForm }
    ensures read { OwedTextsAreReadBack }
{
    days_are_read_back();
}
