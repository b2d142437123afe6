use candidate_roll::Roll;
use plain_ballots::Ballots;

/// An election as its file says it. The ballots are of the roll's candidates.
#[derive(Debug, Drop)]
pub struct Election {
    pub roll: Roll,
    pub ballots: Ballots,
}

/// The same, with its ballots in a store of any kind.
#[derive(Drop)]
pub struct StoredElection<B> {
    pub roll: Roll,
    pub ballots: B,
}
