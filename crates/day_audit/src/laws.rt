// What holds of every input that is a text and its file.
ghost use Rattle.day_audit.specs.Laws.{DaysAreSplit, SheetsAreSplit};

use day_text::owed_days_are_read_back;

/// A sheet with any bytes after it is cut between the two, and so is the true text of a day with the file of that day
/// after it. The call does nothing.
pub fn true_texts_are_split()
    ensures sheets { SheetsAreSplit }
    ensures days { DaysAreSplit }
{
    owed_days_are_read_back();
}
