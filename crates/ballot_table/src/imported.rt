// What was read of a table.
use crate::Tally;
use candidate_roll::Names;
use plain_ballots::Ballots;

/// A table of ballots: the candidates' names, the ballots of its rows, and what became of them.
#[derive(Debug, Drop)]
pub struct Imported {
    pub names: Names,
    pub ballots: Ballots,
    pub tally: Tally,
}
