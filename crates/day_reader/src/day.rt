use crate::Scripts;
use candidate_roll::Roll;
use fixed_place::Omega;
use lot_order::Lots;

/// A day of ballot entry as its file says it. The lots are an order of the roll's candidates, and
/// each call can be made in an office of these candidates.
#[derive(Debug, Drop)]
pub struct Day {
    pub roll: Roll,
    pub lots: Lots,
    /// How many places after the point the count has, from 6 to 9.
    pub places: u32,
    pub omega: Omega,
    pub scripts: Scripts,
}
