//! The count office as a program: [`meek`] does what its words ask for, over a source and a sink, and says how that
//! ended as an [`Outcome`]. What a day or a trial writes is of the crates day_lines and day_sheets, whose public names
//! are passed on here.
#![tactic(auto)]

mod counting;
mod day;
mod day_counting;
mod hands;
mod office;
mod outcome;
mod played_day;
mod run;
mod split;
mod trial;
mod work;

pub use day_lines::Terms;
pub use day_sheets::{
    DayText, NoMemory, SummaryText, made_days_are_days, made_days_have_one_summary, read_made_day,
    separate_teams_end_alike, sum_up,
};
pub use outcome::Outcome;
pub use run::meek;
pub use tool_edge::End as Status;
