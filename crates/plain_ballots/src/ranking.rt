// A ballot's candidates in order of rank.
ghost use Rattle.std.specs.Prelude.{◌≡◌, ◌≤◌, length, take, IfOk, IfErr, OnOk};
ghost use Rattle.plain_ballots.specs.Ranking.{AreRanks, IsRanking, IsRankStop};

use crate::ranks::Ranks;
use crate::{NoMemory, RankStop};
use std::alloc::Global;
use std::fmt;
use std::marker::Model;

/// A ballot's candidates in order of rank, all different. Up to seven ranks, as most ballots have, lie
/// in the value itself and take no memory of their own.
#[derive(Drop)]
pub struct Ranking {
    ranks: Ranks,
}

impl Model for Ranking {
    ghost use Rattle.std.specs.Prelude.{List, ℕ};
    ghost use Rattle.plain_ballots.specs.Ranking.{AreRanks};
    ghost use Rattle.plain_ballots.specs.Ranks.{kept, IsWithin};

    ghost Value = { List ℕ };

    ghost view = { λ r. kept r.ranks };

    ghost invariant = { λ r. IsWithin r.ranks × AreRanks (kept r.ranks) };
}

impl Ranking {
    /// A ranking of ranks that were looked at already. It takes memory once, where the ranks are many.
    pub fn new(alloc: Global, ranks: &[u32]) -> Result<Ranking, NoMemory>
        requires { AreRanks ranks.now }
        ensures { IfOk result (λ ranking. ranking ≡ ranks.now) }
    {
        Ranking::of_front(alloc, ranks, ranks.len())
    }

    /// A ranking of the first `len` of these numbers, which were looked at already. What is after them
    /// is of no matter: whoever reads many rankings can read each of them into the same list.
    #[inline]
    pub fn of_front(alloc: Global, ranks: &[u32], len: usize) -> Result<Ranking, NoMemory>
        requires inside { len ≤ length ranks.now }
        requires ranks { AreRanks (take len ranks.now) }
        ensures { IfOk result (λ ranking. ranking ≡ take len ranks.now) }
    {
        Ok(Ranking {
            ranks: Ranks::new(alloc, ranks, len)?,
        })
    }

    /// A ranking of candidates with the numbers 1 to `candidates`, or the first place at fault.
    pub fn try_new(alloc: Global, candidates: u32, ranks: &[u32]) -> Result<Ranking, RankStop>
        ensures ok { IfOk result (λ ranking. ranking ≡ ranks.now) }
        ensures sound { OnOk result (IsRanking candidates ranks.now) }
        ensures stop { IfErr result (IsRankStop candidates ranks.now) }
    {
        for (i, rank) in ranks.iter().enumerate() {
            if *rank == 0 || *rank > candidates {
                return Err(RankStop::OutOfRange(i + 1));
            }
            if ranks[..i].contains(rank) {
                return Err(RankStop::Repeated(i + 1));
            }
        }
        let ranking = Ranking::new(alloc, ranks)?;
        Ok(ranking)
    }

    pub fn copy(&self, alloc: Global) -> Result<Ranking, NoMemory>
        ensures { IfOk result (λ ranking. ranking ≡ self.now) }
    {
        Ranking::new(alloc, self.ranks())
    }

    pub fn ranks(&self) -> &[u32]
        ensures value { result.now ≡ self.now }
        ensures ranks { AreRanks self.now }
    {
        self.ranks.as_slice()
    }
}

impl fmt::Debug for Ranking {
    fn fmt<W: fmt::Write>(&self, f: &mut fmt::Formatter<W>) -> fmt::Result {
        write!(f, "{:?}", self.ranks())
    }
}
