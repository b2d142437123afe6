// A bag of ballots.
ghost use Rattle.std.specs.Prelude.{◌≡◌, ◌+◌, ◌≤◌, [], ◌++◌, length, replicate, OnOk, IfOk, IsPermutation, vec_len};
ghost use Rattle.plain_ballots.specs.declared.limits.TheConstants.{MOST_BALLOTS, MOST_CANDIDATES};
ghost use Rattle.plain_ballots.specs.Ranking.{IsRanking};
ghost use Rattle.plain_ballots.specs.Ballots.{ballot_count, plain};
ghost use Rattle.ranking_trie.specs.Bag.{bag, node_count, IsRising, IsWithin};
ghost use Rattle.ranking_trie.specs.Siblings.{forest_of};
ghost use Rattle.ranking_trie.specs.Lines.{rank_count, visit_count, HaveRisingRankings};
ghost use Rattle.ranking_trie.specs.Forest.{Forest};
ghost use Rattle.ranking_trie.specs.BallotBag.{AreInOrder, count_of, Holds};

use crate::arena::Arena;
use crate::count::count;
use crate::fronts::Fronts;
use crate::lines::{push_line, push_lines};
use crate::{NoMemory, Siblings};
use plain_ballots::{BallotLine, Ballots, Ranking, Steps};
use std::alloc::Global;
use std::marker::Model;
use std::sync::ledger::Ledger;

/// A bag of ballots as a trie of their rankings: rankings that begin alike share the nodes of that
/// beginning. It is seen as its single rankings in lexicographic order, and as room for so many
/// further ranks, which are nodes to spare.
#[derive(Drop)]
pub struct Trie {
    alloc: Global,
    candidates: u32,
    total: u64,
    ends: u32,
    first: u32,
    nodes: usize,
    arena: Arena,
    fronts: Fronts,
}

impl Model for Trie {
    ghost use Rattle.std.specs.Prelude.{◌≡◌};
    ghost use Rattle.ranking_trie.specs.Arena.{forest_in, IsApart};
    ghost use Rattle.ranking_trie.specs.BallotBag.{BallotBag, IsSoundBag};
    ghost use Rattle.ranking_trie.specs.Bag.{node_count, root_bag, IsRising};
    ghost use Rattle.ranking_trie.specs.Fronts.{KnowsPlaces};

    ghost Value = { BallotBag };

    ghost view = { λ t. record {
      candidates = t.candidates;
      ballots = root_bag t.ends (forest_in t.arena t.first);
      spare = t.arena.spare;
    } };

    ghost invariant = { λ t.
        IsSoundBag t.candidates t.total (root_bag t.ends (forest_in t.arena t.first))
        × IsRising 0 (forest_in t.arena t.first)
        × (t.nodes ≡ node_count (forest_in t.arena t.first))
        × IsApart t.arena t.first
        × (t.fronts.candidates ≡ t.candidates)
        × KnowsPlaces t.fronts (forest_in t.arena t.first) };
}

impl Trie {
    /// No ballots among 1 to 250 candidates, and no room.
    pub fn new(alloc: Global, candidates: u32) -> Trie
        requires { (1 ≤ candidates) × (candidates ≤ MOST_CANDIDATES) }
        ensures { result ≡ record { candidates = candidates; ballots = []; spare = 0 } }
    {
        Trie {
            alloc,
            candidates,
            total: 0,
            ends: 0,
            first: 0,
            nodes: 0,
            arena: Arena::new(alloc),
            fronts: Fronts::new(alloc, candidates),
        }
    }

    /// Makes room for so many ranks in all. Room that was made before want of memory stays.
    pub fn reserve(&mut self, ranks: usize) -> Result<(), NoMemory>
        ensures candidates { self.new.candidates ≡ self.old.candidates }
        ensures ballots { self.new.ballots ≡ self.old.ballots }
        ensures more { self.old.spare ≤ self.new.spare }
        ensures room { OnOk result (ranks ≤ self.new.spare) }
    {
        self.arena.reserve(ranks)?;
        self.fronts.reserve(self.alloc, self.arena.len())
    }

    /// The number of all ballots, empty ones included.
    pub fn total(&self) -> u64
        ensures total { result ≡ length self.now.ballots }
        ensures few { result ≤ MOST_BALLOTS }
    {
        self.total
    }

    /// Puts ballots in. Each line takes a step at the root and one for each rank. A line finds its
    /// node first among the siblings where lines come in falling lexicographic order.
    pub fn add<L: Ledger>(&mut self, ballots: &Ballots, steps: &mut Steps<L>)
        requires candidates { ballots.now.candidates ≡ self.old.candidates }
        requires room { rank_count ballots.now.lines ≤ self.old.spare }
        requires few { length self.old.ballots + ballot_count ballots.now.lines ≤ MOST_BALLOTS }
        ensures candidates { self.new.candidates ≡ self.old.candidates }
        ensures bag { IsPermutation self.new.ballots (plain ballots.now.lines ++ self.old.ballots) }
        ensures total { length self.new.ballots
            ≡ length self.old.ballots + ballot_count ballots.now.lines }
        ensures order { AreInOrder self.new.ballots }
        ensures room { self.old.spare ≤ self.new.spare + rank_count ballots.now.lines }
        ensures cost { steps.new ≡ steps.old + visit_count ballots.now.lines }
    {
        for line in ballots.lines() {
            self.add_line(line, steps);
        }
        self.keep_order();
    }

    /// Puts the ballots of a line in. Nodes that were to spare become nodes of the forest.
    pub fn add_line<L: Ledger>(&mut self, line: &BallotLine, steps: &mut Steps<L>)
        requires ranking { IsRanking self.old.candidates line.now.ranking }
        requires some { 1 ≤ line.now.count }
        requires room { length line.now.ranking ≤ self.old.spare }
        requires few { length self.old.ballots + line.now.count ≤ MOST_BALLOTS }
        ensures candidates { self.new.candidates ≡ self.old.candidates }
        ensures bag { IsPermutation self.new.ballots
            (replicate line.now.count line.now.ranking ++ self.old.ballots) }
        ensures room { self.old.spare ≤ self.new.spare + length line.now.ranking }
        ensures cost { steps.new ≡ steps.old + length line.now.ranking + 1 }
    {
        let nodes = self.nodes + self.arena.spare();
        let ranks = line.ranking.ranks();
        let (ends, first) = self.fronts.put(
            &mut self.arena,
            self.ends,
            self.first,
            ranks,
            line.count,
            steps,
        );
        self.ends = ends;
        self.first = first;
        self.nodes = nodes - self.arena.spare();
        self.total += line.count as u64;
    }

    /// Takes ballots out, with as many steps as to put them in.
    pub fn remove<L: Ledger>(&mut self, ballots: &Ballots, steps: &mut Steps<L>)
        requires held { Holds self.old.ballots (plain ballots.now.lines) }
        ensures candidates { self.new.candidates ≡ self.old.candidates }
        ensures bag { IsPermutation self.old.ballots (plain ballots.now.lines ++ self.new.ballots) }
        ensures total { length self.old.ballots
            ≡ length self.new.ballots + ballot_count ballots.now.lines }
        ensures order { AreInOrder self.new.ballots }
        ensures room { self.old.spare ≤ self.new.spare }
        ensures cost { steps.new ≡ steps.old + visit_count ballots.now.lines }
    {
        for line in ballots.lines() {
            self.remove_line(line, steps);
        }
        self.keep_order();
    }

    /// Takes the ballots of a line out.
    fn remove_line<L: Ledger>(&mut self, line: &BallotLine, steps: &mut Steps<L>)
        requires some { 1 ≤ line.now.count }
        requires held { line.now.count ≤ count_of line.now.ranking self.old.ballots }
        ensures candidates { self.new.candidates ≡ self.old.candidates }
        ensures bag { IsPermutation self.old.ballots
            (replicate line.now.count line.now.ranking ++ self.new.ballots) }
        ensures room { self.old.spare ≤ self.new.spare }
        ensures cost { steps.new ≡ steps.old + length line.now.ranking + 1 }
    {
        let nodes = self.nodes + self.arena.spare();
        let ranks = line.ranking.ranks();
        let (ends, first) = self.fronts.take_out(
            &mut self.arena,
            self.ends,
            self.first,
            ranks,
            line.count,
            steps,
        );
        self.ends = ends;
        self.first = first;
        self.nodes = nodes - self.arena.spare();
        self.total -= line.count as u64;
    }

    /// Ballots are always in order, since siblings rise. The call does nothing.
    fn keep_order(&self)
        ensures { AreInOrder self.now.ballots }
    {
        let _ = &self.first;
    }

    /// How many ballots have just this ranking.
    pub fn count_of(&self, ranking: &Ranking) -> u64
        ensures { result ≡ count_of ranking.now self.now.ballots }
    {
        let forest = self.arena.siblings(self.first);
        count(self.ends, forest, ranking.ranks()) as u64
    }

    /// A trie of the same ballots, without room.
    pub fn copy(&self) -> Result<Trie, NoMemory>
        ensures { IfOk result (λ copy. copy ≡ record self.now { spare = 0 }) }
    {
        Ok(Trie {
            alloc: self.alloc,
            candidates: self.candidates,
            total: self.total,
            ends: self.ends,
            first: self.first,
            nodes: self.nodes,
            arena: self.arena.copy(self.alloc)?,
            fronts: Fronts::new(self.alloc, self.candidates),
        })
    }

    /// The ballots in lines, one for each ranking, in the lexicographic order of candidate numbers.
    pub fn to_ballots(&self) -> Result<Ballots, NoMemory>
        ensures candidates { IfOk result (λ listed. listed.candidates ≡ self.now.candidates) }
        ensures ballots { IfOk result (λ listed. plain listed.lines ≡ self.now.ballots) }
        ensures different { IfOk result (λ listed. HaveRisingRankings listed.lines) }
    {
        let mut listed = Ballots::new(self.alloc, self.candidates);
        let mut ranks = Vec::new(self.alloc);
        push_line(self.alloc, self.ends, &[], &mut listed)?;
        let forest = self.arena.siblings(self.first);
        push_lines(self.alloc, forest, &mut ranks, &mut listed)?;
        Ok(listed)
    }

    /// The number of candidates.
    pub fn candidates(&self) -> u32
        ensures candidates { result ≡ self.now.candidates }
        ensures few { result ≤ MOST_CANDIDATES }
    {
        self.candidates
    }

    /// How many ballots name nobody. They end at the root.
    pub fn ends(&self) -> u32
        ensures { result ≡ count_of [] self.now.ballots }
    {
        self.ends
    }

    /// The nodes of all other ballots.
    pub fn forest(&self) -> Siblings
        ensures ballots { self.now.ballots
            ≡ replicate (count_of [] self.now.ballots) [] ++ bag (forest_of result) }
        ensures rising { IsRising 0 (forest_of result) }
        ensures within { IsWithin self.now.candidates MOST_CANDIDATES 1 (forest_of result) }
        ensures order { AreInOrder self.now.ballots }
    {
        self.arena.siblings(self.first)
    }

    /// How many nodes the forest has.
    pub fn nodes(&self) -> usize
        ensures { (forest : Forest) → IsRising 0 forest →
            (self.now.ballots ≡ replicate (count_of [] self.now.ballots) [] ++ bag forest) →
            result ≡ node_count forest }
    {
        self.nodes
    }
}
