// The ballots that are read so far.
ghost use Rattle.std.specs.Prelude.{◌≡◌, ◌+◌, ◌-◌, ◌≤◌, [], ◌∷◌, ◌++◌, OnOk};
ghost use Rattle.plain_ballots.specs.declared.limits.TheConstants.{MOST_BALLOTS};
ghost use Rattle.plain_ballots.specs.Ballots.{ballot_count};
ghost use Rattle.plain_ballots.specs.Ranking.{IsRanking};
ghost use Rattle.preflib_text.specs.Counting.{no_orders, counting, IsCounted};

use crate::Tally;
use ballot_marks::Treated;
use plain_ballots::{BallotLine, Ballots, MOST_BALLOTS, NoMemory};
use std::alloc::Global;

/// The ballots of the orders that are read so far, with their tally.
#[derive(Drop)]
pub(crate) struct Counted {
    pub ballots: Ballots,
    pub tally: Tally,
}

impl Counted {
    pub fn new(alloc: Global, candidates: u32) -> Counted
        ensures nothing { result ≡ record { ballots = record { candidates = candidates; lines = [] }; tally = no_orders } }
        ensures counted { IsCounted result }
    {
        Counted {
            ballots: Ballots::new(alloc, candidates),
            tally: Tally::new(),
        }
    }

    /// So many more ballots have room.
    pub fn room(&self) -> u32
        ensures { result ≡ MOST_BALLOTS - ballot_count self.now.ballots.lines }
    {
        (MOST_BALLOTS as u64).saturating_sub(self.ballots.total()) as u32
    }

    /// Adds an order of so many ballots.
    pub fn add(&mut self, count: u32, treated: Treated) -> Result<(), NoMemory>
        requires ranking { IsRanking self.old.ballots.candidates treated.ranking }
        requires some { 1 ≤ count }
        requires room { ballot_count self.old.ballots.lines + count ≤ MOST_BALLOTS }
        requires counted { IsCounted self.old }
        ensures ballots { OnOk result (self.new.ballots ≡ record self.old.ballots {
          lines = self.old.ballots.lines ++ record { count = count; ranking = treated.ranking } ∷ [];
        }) }
        ensures tally { OnOk result (self.new.tally ≡ counting self.old.tally count treated) }
        ensures counted { OnOk result (IsCounted self.new) }
    {
        let tally = self.tally.with(count, &treated);
        let line = BallotLine {
            count,
            ranking: treated.ranking,
        };
        match self.ballots.push_line(line) {
            Ok(()) => {
                self.tally = tally;
                Ok(())
            }
            Err(_) => Err(NoMemory),
        }
    }
}
