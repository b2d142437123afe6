// What ballots are read into.
ghost use Rattle.std.specs.Prelude.{◌≡◌, ◌+◌, ℕ, ◌≤◌, List, [], ◌∷◌, ◌++◌, IfOk, OnOk, length, take};
ghost use Rattle.plain_ballots.specs.declared.limits.TheConstants.{MOST_BALLOTS, MOST_CANDIDATES};
ghost use Rattle.plain_ballots.specs.declared.ballot_line.BallotLine.{BallotLine};
ghost use Rattle.plain_ballots.specs.Ballots.{ballot_count};
ghost use Rattle.plain_ballots.specs.Ranking.{IsRanking};

use crate::{NoMemory, PackedBallots};
use plain_ballots::{BallotLine, Ballots, LineStop, Ranking};
use std::alloc::Global;

/// What ballots are read into, line by line.
pub trait BallotStore {
    /// Among how many candidates its ballots are.
    ghost among: { Self → ℕ };

    /// Whether it holds the ballots of these lines, in whatever lines of its own.
    ghost holds: { Self → List BallotLine → Type 0 };

    /// No ballots among so many candidates.
    fn empty(alloc: Global, candidates: u32) -> Result<Self, NoMemory>
        requires { candidates ≤ MOST_CANDIDATES }
        ensures candidates { IfOk result (λ store. among store ≡ candidates) }
        ensures none { IfOk result (λ store. holds store []) };

    /// The number of all ballots, empty ones included.
    fn ballot_count(&self) -> u64
        ensures { (lines : List BallotLine) → holds self.now lines → result ≡ ballot_count lines };

    /// Takes in so many ballots with a ranking: the first `len` of these numbers.
    fn take_line(
        &mut self,
        alloc: Global,
        count: u32,
        ranks: &[u32],
        len: usize,
    ) -> Result<(), NoMemory>
        requires inside { len ≤ length ranks.now }
        requires ranking { IsRanking (among self.old) (take len ranks.now) }
        requires counted { 1 ≤ count }
        requires room { (lines : List BallotLine) → holds self.old lines → ballot_count lines + count ≤ MOST_BALLOTS }
        ensures candidates { among self.new ≡ among self.old }
        ensures lines { OnOk result ((lines : List BallotLine) → holds self.old lines → holds self.new (lines ++ record { count = count; ranking = take len ranks.now } ∷ [])) };
}

impl BallotStore for Ballots {
    ghost use Rattle.std.specs.Prelude.{◌≡◌};

    ghost among = { λ b. b.candidates };

    ghost holds = { λ b lines. b.lines ≡ lines };

    fn empty(alloc: Global, candidates: u32) -> Result<Ballots, NoMemory> {
        Ok(Ballots::new(alloc, candidates))
    }

    fn ballot_count(&self) -> u64 {
        self.total()
    }

    #[inline(always)]
    fn take_line(
        &mut self,
        alloc: Global,
        count: u32,
        ranks: &[u32],
        len: usize,
    ) -> Result<(), NoMemory> {
        let Ok(ranking) = Ranking::of_front(alloc, ranks, len) else {
            return Err(NoMemory);
        };
        match self.push_line(BallotLine { count, ranking }) {
            Ok(()) => Ok(()),
            Err(LineStop::NoMemory(_)) => Err(NoMemory),
            Err(LineStop::TooMany(_)) => unreachable!(),
        }
    }
}

impl BallotStore for PackedBallots {
    ghost use Rattle.std.specs.Prelude.{IsPermutation};
    ghost use Rattle.plain_ballots.specs.Ballots.{plain};

    ghost among = { λ p. p.candidates };

    ghost holds = { λ p lines. IsPermutation (plain p.lines) (plain lines) };

    fn empty(alloc: Global, candidates: u32) -> Result<PackedBallots, NoMemory> {
        PackedBallots::new(alloc, candidates)
    }

    fn ballot_count(&self) -> u64 {
        self.total()
    }

    #[inline(always)]
    fn take_line(
        &mut self,
        alloc: Global,
        count: u32,
        ranks: &[u32],
        len: usize,
    ) -> Result<(), NoMemory> {
        let _ = alloc;
        self.take(count, ranks, len)
    }
}
