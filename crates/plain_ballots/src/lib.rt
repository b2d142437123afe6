//! What voters said: a [`Ranking`] of candidates, a [`BallotLine`] of equal ballots, and the
//! [`Ballots`] of an election, line by line with their total. [`Steps`] counts what work on them
//! costs.
#![tactic(auto)]

mod append_stop;
mod ballot_line;
mod ballots;
mod laws;
mod limits;
mod line_stop;
mod no_memory;
mod plain;
mod rank_stop;
mod ranking;
mod ranks;
mod steps;

pub use append_stop::AppendStop;
pub use ballot_line::BallotLine;
pub use ballots::Ballots;
pub use laws::ranks_have_one_refusal;
pub use limits::{MOST_BALLOTS, MOST_CANDIDATES};
pub use line_stop::LineStop;
pub use no_memory::NoMemory;
pub use plain::lines_stand_for_ballots;
pub use rank_stop::RankStop;
pub use ranking::Ranking;
pub use steps::Steps;
