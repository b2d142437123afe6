// How far a count has come.
use fixed_place::Amount;

/// How far a count has come: the numbers of the round and of the iteration within it, both from 1 on,
/// and the surplus of the iteration before in this round, or none at its first.
#[derive(Debug, Drop)]
pub struct Stage<const P: usize> {
    pub round: u32,
    pub iteration: u64,
    pub previous: Option<Amount<P>>,
}
