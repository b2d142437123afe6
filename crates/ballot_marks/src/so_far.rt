// What the marks of a ballot come to up to one of them.
ghost use Rattle.std.specs.Prelude.{◌≡◌, ◌≤◌, [], ◌∷◌, ◌++◌, false, IfOk, IfErr};
ghost use Rattle.plain_ballots.specs.Ranking.{IsRanking};
ghost use Rattle.ballot_marks.specs.Marks.{SaysOneOf, is_among};
ghost use Rattle.ballot_marks.specs.Ways.{way_behind};
ghost use Rattle.ballot_marks.specs.declared.way.Way.TheVariants.{Ranked, Passed};
ghost use Rattle.ballot_marks.specs.SoFar.{behind, made, SaysNew};
ghost use Rattle.ballot_marks.specs.declared.treat_stop.TreatStop.TheVariants.{NoMemory as no_memory};

use crate::{Mark, Says, TreatStop, Treated, Treatment, Way};
use plain_ballots::{MOST_CANDIDATES, Ranking};
use std::alloc::Global;
use std::marker::Model;

// No ranking is longer.
const ROOM: usize = MOST_CANDIDATES as usize;

/// What the marks so far come to, none of which ended the ballot. It takes no memory of its own.
#[derive(Drop)]
pub(crate) struct SoFar {
    candidates: u32,
    ranks: [u32; ROOM],
    len: usize,
    closed: bool,
    passed: bool,
}

impl Model for SoFar {
    ghost use Rattle.std.specs.Prelude.{◌≤◌, take};
    ghost use Rattle.plain_ballots.specs.declared.limits.TheConstants.{MOST_CANDIDATES};
    ghost use Rattle.plain_ballots.specs.Ranking.{IsRanking};
    ghost use Rattle.ballot_marks.specs.SoFar.{Standing};

    ghost Value = { Standing };

    ghost view = { λ s. record {
      candidates = s.candidates;
      ranks = take s.len s.ranks;
      closed = s.closed;
      passed = s.passed;
    } };

    ghost invariant = { λ s.
        (s.candidates ≤ MOST_CANDIDATES)
        × (s.len ≤ MOST_CANDIDATES)
        × IsRanking s.candidates (take s.len s.ranks) };
}

impl SoFar {
    /// No mark yet.
    pub fn new(candidates: u32) -> SoFar
        requires { candidates ≤ MOST_CANDIDATES }
        ensures { result ≡ record { candidates = candidates; ranks = []; closed = false; passed = false } }
    {
        SoFar {
            candidates,
            ranks: [0; ROOM],
            len: 0,
            closed: false,
            passed: false,
        }
    }

    /// What becomes of the next mark, which is taken in unless the ballot ends at it.
    pub fn judge(&mut self, treatment: &Treatment, mark: Mark) -> Way
        requires { SaysOneOf self.old.candidates mark.says }
        ensures way { result ≡ way_behind treatment.now self.old.ranks mark }
        ensures taken { self.new ≡ behind self.old mark result }
    {
        let way = treatment.way(self.ranks(), mark);
        match way {
            Way::Ranked => self.rank(mark),
            Way::Passed => self.pass(mark),
            Way::Cut | Way::Refused(_) => {}
        }
        way
    }

    /// The ranking so far, and how it came about.
    pub fn treated(&self, alloc: Global, cut: bool) -> Result<Treated, TreatStop>
        ensures treated { IfOk result (λ treated. treated ≡ made self.now cut) }
        ensures sound { IsRanking self.now.candidates self.now.ranks }
        ensures stop { IfErr result (λ stop. stop ≡ no_memory) }
    {
        Ok(Treated {
            ranking: Ranking::of_front(alloc, &self.ranks, self.len)?,
            closed: self.closed,
            passed: self.passed,
            cut,
        })
    }

    fn ranks(&self) -> &[u32]
        ensures { result.now ≡ self.now.ranks }
    {
        &self.ranks[..self.len]
    }

    /// What the mark says has the next rank.
    fn rank(&mut self, mark: Mark)
        requires candidate { SaysOneOf self.old.candidates mark.says }
        requires another { SaysNew self.old.ranks mark.says }
        ensures { self.new ≡ behind self.old mark Ranked }
    {
        self.closed |= mark.skipped > 0;
        if let Says::One(candidate) = mark.says {
            self.push(candidate);
        }
    }

    fn push(&mut self, candidate: u32)
        requires candidate { (1 ≤ candidate) × (candidate ≤ self.old.candidates) }
        requires another { is_among self.old.ranks candidate ≡ false }
        ensures { self.new ≡ record self.old { ranks = self.old.ranks ++ candidate ∷ [] } }
    {
        self.ranks[self.len] = candidate;
        self.len += 1;
    }

    fn pass(&mut self, mark: Mark)
        ensures { self.new ≡ behind self.old mark Passed }
    {
        self.closed |= mark.skipped > 0;
        self.passed = true;
    }
}
