//! A board of first preferences for the hall in which a day's ballots are entered.
//!
//! [`tally`] is the whole tool: it reads a day file and makes the changes of its scripts at one book of
//! all batches; whenever a change is accepted, the scribe of a board publishes that the old ballots of
//! its batch go and the new ones come. In the end the totals of the board are written.
#![tactic(auto)]

mod entering;
mod hall;
mod moves;
mod no_memory;
mod opening;
mod scripts;
mod text;
mod tool;

pub(crate) use no_memory::NoMemory;
pub use tool::tally;
