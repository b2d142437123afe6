//! The text of a day as it is read: [`read_day_text`] gives the values that a text writes, where it is the text
//! of a day of so many places at all: all answered calls, and the sheet of each freeze; [`day_places`] says at how
//! many places it is, and [`end_of_day`] what is in the end of its history.
#![tactic(auto)]

mod batch_end;
mod call_reader;
mod change_end;
mod cut;
mod day_end;
mod day_sheet;
mod day_sheets;
mod day_stop;
mod day_text;
mod ending;
mod entry_reader;
mod history_reader;
mod laws;
mod number;
mod own_places;
mod reading;
mod sheet_cut;
mod sheets_reader;
mod worked;
mod written;

pub use batch_end::BatchEnd;
pub use day_end::DayEnd;
pub use day_sheet::DaySheet;
pub use day_sheets::DaySheets;
pub use day_stop::DayStop;
pub use day_text::DayText;
pub use ending::end_of_day;
pub use laws::{no_day_is_a_sheet, written_days_are_read};
pub use own_places::day_places;
pub use reading::read_day_text;
pub use worked::worked_day;
pub use written::{days_are_read_back, owed_days_are_read_back};
