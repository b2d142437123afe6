// What the ballots of a file come to.
ghost use Rattle.std.specs.Prelude.{◌≡◌, ◌+◌, ◌*◌, ◌-◌, ◌<◌, ◌≤◌, ◌||◌, ◌++◌, ◌∷◌, [], ℕ, Bool, List, false, cond, length, replicate, slice_index, slice_index_or, All, IfOk};
ghost use Rattle.plain_ballots.specs.declared.ballot_line.BallotLine.{BallotLine};
ghost use Rattle.plain_ballots.specs.declared.limits.TheConstants.{MOST_BALLOTS, MOST_CANDIDATES};
ghost use Rattle.plain_ballots.specs.Ranking.{IsRanking};
ghost use Rattle.candidate_roll.specs.Roll.{is_listed};
ghost use Rattle.ballot_findings.specs.Counts.{has_first, is_empty, ranks_withdrawn};
ghost use Rattle.ballot_findings.specs.Tally.{IsTally, first_of, was_ranked};

use crate::no_memory::NoMemory;
use candidate_roll::Roll;
use plain_ballots::BallotLine;
use std::alloc::Global;
use std::marker::Model;

/// What lines of ballots come to, counted once over.
#[derive(Drop)]
pub(crate) struct Tally {
    ballots: u64,
    empty: u64,
    ranks: u64,
    of_withdrawn: u64,
    firsts: Vec<u64>,
    ranked: Vec<bool>,
}

impl Model for Tally {
    ghost use Rattle.ballot_findings.specs.Tally.{TallyList, IsBounded};

    ghost Value = { TallyList };

    ghost view = { λ t. record {
      ballots = t.ballots;
      empty = t.empty;
      ranks = t.ranks;
      of_withdrawn = t.of_withdrawn;
      firsts = t.firsts.items;
      ranked = t.ranked.items;
    } };

    ghost invariant = { λ t. IsBounded (record {
      ballots = t.ballots;
      empty = t.empty;
      ranks = t.ranks;
      of_withdrawn = t.of_withdrawn;
      firsts = t.firsts.items;
      ranked = t.ranked.items;
    }) };
}

impl Tally {
    /// No ballots yet, among so many candidates.
    pub(crate) fn new(alloc: Global, candidates: u32) -> Result<Tally, NoMemory>
        ensures { IfOk result (λ t. t ≡ record {
          ballots = 0;
          empty = 0;
          ranks = 0;
          of_withdrawn = 0;
          firsts = replicate candidates 0;
          ranked = replicate candidates false;
        }) }
    {
        Ok(Tally {
            ballots: 0,
            empty: 0,
            ranks: 0,
            of_withdrawn: 0,
            firsts: vec![in alloc; 0; candidates as usize]?,
            ranked: vec![in alloc; false; candidates as usize]?,
        })
    }

    /// Counts the ballots of one more line.
    pub(crate) fn add(&mut self, roll: &Roll, line: &BallotLine)
        requires ranking { IsRanking (length roll.now.names) line.now.ranking }
        requires counted { 1 ≤ line.now.count }
        requires few { length roll.now.names ≤ MOST_CANDIDATES }
        requires room { self.old.ballots + line.now.count ≤ MOST_BALLOTS }
        requires all_firsts { length self.old.firsts ≡ length roll.now.names }
        requires all_ranked { length self.old.ranked ≡ length roll.now.names }
        ensures { (before : List BallotLine) → IsTally (length roll.now.names) roll.now.withdrawn before self.old
            → IsTally (length roll.now.names) roll.now.withdrawn (before ++ line.now ∷ []) self.new }
    {
        let count = line.count as u64;
        let ranks = line.ranking.ranks();
        self.ballots += count;
        self.empty += count_if(ranks_nobody(ranks), count);
        self.ranks += count * ranks.len() as u64;
        self.of_withdrawn += count_if(ranks_withdrawn(roll, ranks), count);
        add_first(&mut self.firsts, count, ranks);
        mark_ranked(&mut self.ranked, ranks);
    }

    pub(crate) fn ballots(&self) -> u64
        ensures { result ≡ self.now.ballots }
    {
        self.ballots
    }

    /// How many ballots rank nobody.
    pub(crate) fn empty(&self) -> u64
        ensures { result ≡ self.now.empty }
    {
        self.empty
    }

    /// The ranks of all ballots together.
    pub(crate) fn ranks(&self) -> u64
        ensures value { result ≡ self.now.ranks }
        ensures bound { result ≤ MOST_CANDIDATES * MOST_BALLOTS }
    {
        self.ranks
    }

    /// How many ballots rank somebody who was withdrawn.
    pub(crate) fn of_withdrawn(&self) -> u64
        ensures { result ≡ self.now.of_withdrawn }
    {
        self.of_withdrawn
    }

    /// How many ballots have candidate `c` first.
    pub(crate) fn first(&self, c: u32) -> u64
        requires { (1 ≤ c) × (c ≤ length self.now.firsts) }
        ensures { result ≡ first_of self.now c }
    {
        self.firsts[(c - 1) as usize]
    }

    /// Whether some ballot ranks candidate `c`.
    pub(crate) fn was_ranked(&self, c: u32) -> bool
        requires { (1 ≤ c) × (c ≤ length self.now.ranked) }
        ensures { result ≡ was_ranked self.now c }
    {
        self.ranked[(c - 1) as usize]
    }
}

/// The ballots, where they pass a test.
fn count_if(test: bool, ballots: u64) -> u64
    ensures value { result ≡ ballots * cond test 1 0 }
    ensures few { result ≤ ballots }
{
    if test { ballots } else { 0 }
}

fn ranks_nobody(ranks: &[u32]) -> bool
    ensures { result ≡ is_empty ranks.now }
{
    matches!(ranks, [])
}

/// Whether somebody who was withdrawn is among the ranks.
fn ranks_withdrawn(roll: &Roll, ranks: &[u32]) -> bool
    requires { IsRanking (length roll.now.names) ranks.now }
    ensures { result ≡ ranks_withdrawn roll.now.withdrawn ranks.now }
{
    for c in ranks {
        if roll.is_withdrawn(*c) {
            return true;
        }
    }
    false
}

/// Gives the ballots to the first of the ranks.
fn add_first(firsts: &mut Vec<u64>, count: u64, ranks: &[u32])
    requires ranking { IsRanking (length firsts.old.items) ranks.now }
    requires room { All (λ n. n + count ≤ MOST_BALLOTS) firsts.old.items }
    ensures few { (most : ℕ) → All (λ n. n ≤ most) firsts.old.items → All (λ n. n ≤ most + count) firsts.new.items }
    ensures more { (c : ℕ) → 1 ≤ c → c ≤ length firsts.old.items
        → slice_index firsts.new.items (c - 1)
        ≡ slice_index firsts.old.items (c - 1) + count * cond (has_first c ranks.now) 1 0 }
    ensures all { length firsts.new.items ≡ length firsts.old.items }
{
    if let [c, ..] = ranks {
        firsts[(*c - 1) as usize] += count;
    }
}

/// Marks all who are ranked.
fn mark_ranked(ranked: &mut Vec<bool>, ranks: &[u32])
    requires { IsRanking (length ranked.old.items) ranks.now }
    ensures marked { (c : ℕ) → 1 ≤ c → c ≤ length ranked.old.items
        → slice_index_or ranked.new.items (c - 1) false
        ≡ (slice_index_or ranked.old.items (c - 1) false || is_listed ranks.now c) }
    ensures all { length ranked.new.items ≡ length ranked.old.items }
{
    for c in ranks {
        ranked[(*c - 1) as usize] = true;
    }
}
