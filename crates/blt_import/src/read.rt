// What was read of an input.
use ballot_table::Tally;
use candidate_roll::{MOST_TITLE_BYTES, Name, Names};
use plain_ballots::Ballots;

/// What was read of an input of any form: the names of its candidates, its title, its ballots, and what became of them.
#[derive(Drop)]
pub(crate) struct Read {
    pub names: Names,
    pub title: Name<MOST_TITLE_BYTES>,
    pub ballots: Ballots,
    pub tally: Tally,
}
