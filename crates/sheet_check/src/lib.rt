//! Whether a text is the sheet of an election: the count is run again, and what it writes is compared
//! with the text as it comes.
//!
//! [`judge`] gives the verdict on a text and an election by the [`Terms`] of a count;
//! [`verdicts_are_unique`] says that each text has one, and [`sheets_are_true`] that the verdict on a sheet
//! is that it is true by the terms of its count, and by no other places. [`Comparing`] is the sink that compares, for any text. [`check`]
//! is the whole tool, over an input that is a sheet and after it a ballot file, and [`check_two`] over two inputs, of
//! which the one is the whole sheet and the other the whole file. [`open_two`] reads both, also for the tools of a day.
#![tactic(auto)]

mod behind;
mod comparing;
mod counting;
mod forms;
mod judging;
mod laws;
mod no_memory;
mod split;
mod terms;
mod tool;
mod two_files;
mod two_inputs;
mod verdict;
mod verdict_line;
mod worked;

pub use comparing::Comparing;
pub use judging::judge;
pub use laws::{sheets_are_true, verdicts_are_unique};
pub use no_memory::NoMemory;
pub use split::has_end_at;
pub use terms::Terms;
pub use tool::check;
pub use two_files::check_two;
pub use two_inputs::{TwoInputs, TwoLimits, open_two};
pub use verdict::Verdict;
pub use worked::worked_checks;
