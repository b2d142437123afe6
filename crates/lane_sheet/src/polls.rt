// How ballots are counted.
use candidate_roll::Roll;
use fixed_place::Omega;
use lot_order::Lots;

/// How ballots are counted: the roll of each count, and the lots and omega of all of them.
#[derive(Drop)]
pub struct Polls<'e> {
    pub rolls: &'e [Roll],
    pub lots: &'e Lots,
    pub omega: Omega,
}
