//! A count in steps that take no memory: a [`Count`] goes through an election iteration by iteration, and
//! each [`Turn`] says whether one was made or the count is at its end.
//!
//! meek_rule says what one iteration does; this crate what follows for all of them: that a count ends, that
//! it is the only one (`specs/Rows`), and in which ranges its numbers stay. A count distributes ballots by
//! any `Spread`, so the list of lines of an embedder and the lanes of the program give the same rows.
#![tactic(auto)]

mod count;
mod laws;
mod turn;
mod worked;

pub use count::Count;
pub use laws::{counts_are_unique, rows_stay_in_range};
pub use turn::Turn;
pub use worked::worked_counts;
