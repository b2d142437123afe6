// What was read of a text.
use crate::Tally;
use candidate_roll::{MOST_TITLE_BYTES, Name, Names};
use plain_ballots::Ballots;

/// What a text of PrefLib comes to.
#[derive(Debug, Drop)]
pub struct Imported {
    pub names: Names,
    /// That of the words, or else of the text, or none.
    pub title: Name<MOST_TITLE_BYTES>,
    /// The ballots of the orders, a line for each order.
    pub ballots: Ballots,
    pub tally: Tally,
}
