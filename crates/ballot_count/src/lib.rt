//! A count as a tool: [`run_count`] reads a ballot file from a source, counts it by the lots of its words, and writes
//! the sheet to a sink. It is the smallest run to trust: what is below it is the reader, the rule and the lanes, and
//! nothing of days, teams or threads that wait.
//!
//! The program `counter` makes that call. [`count`] is the part after the words, for a caller that has read its own, as
//! the whole program does; [`takes_count`] reads the words of a count; [`end_after`] ends a run after its text.
#![tactic(auto)]

mod asked;
mod closing;
mod counting;
mod run;

pub use asked::{CountWords, takes_count};
pub use closing::end_after;
pub use counting::count;
pub use run::run_count;
