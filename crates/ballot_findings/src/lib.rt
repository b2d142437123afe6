//! What a ballot file says, before anything is counted: [`findings_of`] gives what was read, a fact a line, and after
//! it a line for each thing that wants a look before a count: names that are easily mistaken, seats for everybody,
//! candidates on no ballot, a ballot that goes over a line break, strings after the title.
//!
//! The tool `look` writes it. Each figure is a count over the single ballots, and each place is that of a token of the
//! file, found by going through its tokens a second time.
#![tactic(auto)]

mod ballot_file;
mod breaks;
mod counted;
mod doubt;
mod kind;
mod laws;
mod likeness;
mod lines;
mod looking;
mod mark;
mod names;
mod no_memory;
mod odd;
mod oddity;
mod reading;
mod said;
mod sites;
mod tally;
mod text;
mod unseen;
mod warnings;
mod worked;

pub use laws::{looks_are_owed, tokens_are_theirs};
pub use looking::findings_of;
pub use no_memory::NoMemory;
pub use text::Text;
pub use worked::worked_looks;
