// A ranking that was copied out of a plan.
ghost use Rattle.std.specs.Prelude.{◌≡◌, ◌≤◌, [], length};
ghost use Rattle.plain_ballots.specs.declared.limits.TheConstants.{MOST_CANDIDATES};

use plain_ballots::MOST_CANDIDATES;
use std::marker::Model;

// No ranking of a plan is longer.
pub(crate) const ROOM: usize = MOST_CANDIDATES as usize;

/// The candidates of a ranking. It takes no memory of its own.
#[derive(Drop)]
pub(crate) struct Ranks {
    ranks: [u16; ROOM],
    len: usize,
}

impl Model for Ranks {
    ghost use Rattle.std.specs.Prelude.{◌≤◌, List, ℕ, take};
    ghost use Rattle.plain_ballots.specs.declared.limits.TheConstants.{MOST_CANDIDATES};

    ghost Value = { List ℕ };

    ghost view = { λ r. take r.len r.ranks };

    ghost invariant = { λ r. r.len ≤ MOST_CANDIDATES };
}

impl Ranks {
    pub fn new() -> Ranks
        ensures { result ≡ [] }
    {
        Ranks {
            ranks: [0; ROOM],
            len: 0,
        }
    }

    /// Makes the ranking this one.
    pub fn copy(&mut self, ranking: &[u16])
        requires { length ranking.now ≤ MOST_CANDIDATES }
        ensures { self.new ≡ ranking.now }
    {
        self.len = ranking.len();
        self.ranks[..self.len].copy_from_slice(ranking);
    }

    pub fn items(&self) -> &[u16]
        ensures { result.now ≡ self.now }
    {
        &self.ranks[..self.len]
    }
}
