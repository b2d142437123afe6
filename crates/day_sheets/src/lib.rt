//! What is written of the counts of a day: the texts of its sheets, and the summary of a made day.
//!
//! A day's history and the ballots of its freezes are given; who made them, an office in threads or a replay of a text,
//! makes no difference here. [`DayText`] is the text of a day as lane_sheet's `CountText`; [`sum_up`] counts what is
//! left after all calls of a made day and writes its summary, a [`SummaryText`]. [`read_made_day`] makes the day of a
//! number. meek_cli writes with these, and day_audit compares a text with what they write.
//!
//! The one idea: a text is defined over the counts that are due, in `specs/DueSheets` and `specs/Summary`, before
//! anything is counted, and its writer counts while it writes. So the same call serves every sink.
#![tactic(auto)]

mod counted_out;
mod day_text;
mod laws;
mod made_days;
mod no_memory;
mod standing;
mod summary;
mod summary_text;
mod summing;
mod turns;

pub use day_text::DayText;
pub use laws::{made_days_have_one_summary, separate_teams_end_alike};
pub use made_days::{made_days_are_days, read_made_day};
pub use no_memory::NoMemory;
pub use summary_text::SummaryText;
pub use summing::sum_up;
