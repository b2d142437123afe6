//! Ballots packed: the ranks of all lines as bytes in one list, 16 bytes a line besides, and equal lines
//! mostly made one as they come. [`BallotStore`] is what a reader of ballots can put lines into: the
//! [`plain_ballots::Ballots`], which keep each line, or [`PackedBallots`].
#![tactic(auto)]

mod append;
mod ballot_store;
mod find;
mod front;
mod laws;
mod no_memory;
mod packed_ballots;
mod packed_line;
mod put;
mod seats;
mod worked;

pub use ballot_store::BallotStore;
pub use laws::{fronts_tell_rankings, packed_lines_stand_for_ballots};
pub use no_memory::NoMemory;
pub use packed_ballots::PackedBallots;
pub use packed_line::{PackedLine, rank_at};
pub use worked::worked_lines;
