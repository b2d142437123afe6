// What holds of every text of a day that is read.
ghost use Rattle.day_text.specs.Laws.{DayFormSaysItsValues, WrittenDaysAreRead, NoDayIsASheet};

use sheet_reader::written_values_are_read;

/// A text with the form of the text of a day says its values: what was written into it is what is read of it.
pub fn written_days_are_read()
    ensures values { DayFormSaysItsValues }
    ensures read { WrittenDaysAreRead }
{
    written_values_are_read();
}

/// No text is that of a day and a sheet, too.
pub fn no_day_is_a_sheet()
    ensures { NoDayIsASheet }
{}
