//! Day files: the [`Day`] that a file says, with a [`Script`] of calls for each team, or the place and kind
//! of its refusal. `day`, `audit`, `ballots` and `tally` begin with [`read_day`].
//!
//! The one idea: rolls and lines of ballots in a day file are read by the readers of a ballot file
//! (blt_reader), so what is refused there is refused here, at its place in the day file.
#![tactic(auto)]

mod calls;
mod day;
mod days;
mod keyword;
mod laws;
mod lots;
mod numbers;
mod push_back;
mod scale;
mod script;
mod scripts;
mod team_reading;
mod teams;
mod words;
mod worked;

pub use day::Day;
pub use days::read_day;
pub use keyword::Keyword;
pub use laws::{
    accepts_days, expects_rightly, follows_open_lists, has_one_day, refuses_all_else,
    refuses_by_the_rule,
};
pub use push_back::PushBack;
pub use script::Script;
pub use scripts::Scripts;
pub use worked::worked_files;
