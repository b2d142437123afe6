// A table of the nodes of two candidates.
ghost use Rattle.std.specs.Prelude.{◌≡◌, ◌≢◌, ℕ, ◌+◌, ◌-◌, ◌*◌, ◌^◌, ◌<◌, ◌≤◌, [], ◌++◌, length, take, replicate, slice_index, All, IsPermutation, ◌⊎◌};
ghost use Rattle.plain_ballots.specs.declared.limits.TheConstants.{MOST_CANDIDATES};
ghost use Rattle.ranking_trie.specs.Bag.{node_count, root_bag, IsRising};
ghost use Rattle.ranking_trie.specs.BallotBag.{count_of};
ghost use Rattle.ranking_trie.specs.Arena.{forest_in, IsApart};
ghost use Rattle.ranking_trie.specs.Fronts.{place_on, entry, IsFirm, KnowsPlaces};

use crate::NoMemory;
use crate::arena::Arena;
use plain_ballots::Steps;
use std::alloc::Global;
use std::sync::ledger::Ledger;

/// Where the nodes of two candidates lie, one below the other: for each such pair a place, or 0 where
/// it isn't known. A trie of few nodes has no table.
#[derive(Drop)]
pub(crate) struct Fronts {
    candidates: u32,
    places: Vec<u32>,
}

impl Fronts {
    /// No table.
    pub(crate) fn new(alloc: Global, candidates: u32) -> Fronts
        ensures candidates { result.candidates ≡ candidates }
        ensures empty { result.places.items ≡ [] }
    {
        Fronts {
            candidates,
            places: Vec::new(alloc),
        }
    }

    /// Makes the table, in which nothing is known yet, once there are as many nodes as pairs. A pair
    /// takes 4 bytes and a node 16.
    pub(crate) fn reserve(&mut self, alloc: Global, nodes: usize) -> Result<(), NoMemory>
        requires few { self.old.candidates ≤ MOST_CANDIDATES }
        ensures candidates { self.new.candidates ≡ self.old.candidates }
        ensures entries { (c d : ℕ) → entry self.new c d ≡ entry self.old c d }
    {
        let candidates = self.candidates as usize;
        let pairs = candidates * candidates;
        if self.places.len() == 0 && nodes >= pairs {
            self.places = vec![in alloc; 0; pairs]?;
        }
        Ok(())
    }

    /// Where the entry of two candidates stands.
    fn index(&self, c: u32, d: u32) -> usize
        requires upper { (1 ≤ c) × (c ≤ self.now.candidates) }
        requires lower { (1 ≤ d) × (d ≤ self.now.candidates) }
        requires few { self.now.candidates ≤ MOST_CANDIDATES }
        ensures { result ≡ (c - 1) * self.now.candidates + (d - 1) }
    {
        (c as usize - 1) * self.candidates as usize + (d as usize - 1)
    }

    /// The place that is known of the node of the first two ranks, or 0.
    fn place(&self, ranks: &[u32]) -> u32
        requires numbers { All (λ r. (1 ≤ r) × (r ≤ self.now.candidates)) ranks.now }
        requires few { self.now.candidates ≤ MOST_CANDIDATES }
        ensures short { length ranks.now < 2 → result ≡ 0 }
        ensures known { 2 ≤ length ranks.now →
            result ≡ entry self.now (slice_index ranks.now 0) (slice_index ranks.now 1) }
    {
        if ranks.len() < 2 {
            return 0;
        }
        let at = self.index(ranks[0], ranks[1]);
        if at >= self.places.len() {
            return 0;
        }
        self.places[at]
    }

    /// Writes down the place of the node of two candidates, or 0, where there is a table.
    fn set(&mut self, c: u32, d: u32, place: u32)
        requires upper { (1 ≤ c) × (c ≤ self.old.candidates) }
        requires lower { (1 ≤ d) × (d ≤ self.old.candidates) }
        requires few { self.old.candidates ≤ MOST_CANDIDATES }
        ensures candidates { self.new.candidates ≡ self.old.candidates }
        ensures own { entry self.new c d ≢ 0 → entry self.new c d ≡ place }
        ensures others { (a b : ℕ) → 1 ≤ a → a ≤ self.old.candidates → 1 ≤ b → b ≤ self.old.candidates →
            (a ≢ c) ⊎ (b ≢ d) → entry self.new a b ≡ entry self.old a b }
    {
        let at = self.index(c, d);
        if at < self.places.len() {
            self.places[at] = place;
        }
    }
}

impl Fronts {
    /// Puts `count` ballots in at a root, as `Arena::put` does, and passes no sibling of the first
    /// two ranks where their node is known.
    pub(crate) fn put<L: Ledger>(
        &mut self,
        arena: &mut Arena,
        ends: u32,
        first: u32,
        ranks: &[u32],
        count: u32,
        steps: &mut Steps<L>,
    ) -> (u32, u32)
        requires apart { IsApart arena.old first }
        requires room { length ranks.now ≤ arena.old.spare }
        requires total { length (root_bag ends (forest_in arena.old first)) + count < 2 ^ 32 }
        requires rising { IsRising 0 (forest_in arena.old first) }
        requires numbers { All (λ r. (1 ≤ r) × (r ≤ self.old.candidates)) ranks.now }
        requires some { 1 ≤ count }
        requires few { self.old.candidates ≤ MOST_CANDIDATES }
        requires known { KnowsPlaces self.old (forest_in arena.old first) }
        ensures apart { IsApart arena.new result.1 }
        ensures bag { IsPermutation (root_bag result.0 (forest_in arena.new result.1))
            (replicate count ranks.now ++ root_bag ends (forest_in arena.old first)) }
        ensures rising { IsRising 0 (forest_in arena.new result.1) }
        ensures nodes { node_count (forest_in arena.new result.1) + arena.new.spare
            ≡ node_count (forest_in arena.old first) + arena.old.spare }
        ensures room { arena.old.spare ≤ arena.new.spare + length ranks.now }
        ensures candidates { self.new.candidates ≡ self.old.candidates }
        ensures known { KnowsPlaces self.new (forest_in arena.new result.1) }
        ensures cost { steps.new ≡ steps.old + length ranks.now + 1 }
    {
        let place = self.place(ranks);
        if place != 0 {
            let first = arena.put_from(first, place, ranks, count, steps);
            return (ends, first);
        }
        let (ends, first) = arena.put(ends, first, ranks, count, steps);
        self.note(arena, first, ranks);
        (ends, first)
    }

    /// Writes down the place of the node of the first two ranks, where there is a table.
    fn note(&mut self, arena: &Arena, first: u32, ranks: &[u32])
        requires apart { IsApart arena.now first }
        requires rising { IsRising 0 (forest_in arena.now first) }
        requires numbers { All (λ r. (1 ≤ r) × (r ≤ self.old.candidates)) ranks.now }
        requires few { self.old.candidates ≤ MOST_CANDIDATES }
        requires known { KnowsPlaces self.old (forest_in arena.now first) }
        ensures candidates { self.new.candidates ≡ self.old.candidates }
        ensures known { KnowsPlaces self.new (forest_in arena.now first) }
    {
        if ranks.len() < 2 || self.places.len() == 0 {
            return;
        }
        let place = arena.place_of_two(first, ranks[0] as u16, ranks[1] as u16);
        self.set(ranks[0], ranks[1], place);
    }

    /// The place that is known of the node of the first two ranks, where more ranks follow and the
    /// node keeps a ballot when ballots with these ranks are taken out, or else 0.
    fn firm_place(&self, arena: &Arena, first: u32, ranks: &[u32]) -> u32
        requires apart { IsApart arena.now first }
        requires rising { IsRising 0 (forest_in arena.now first) }
        requires numbers { All (λ r. (1 ≤ r) × (r ≤ self.now.candidates)) ranks.now }
        requires few { self.now.candidates ≤ MOST_CANDIDATES }
        requires known { KnowsPlaces self.now (forest_in arena.now first) }
        ensures longer { 1 ≤ result → 3 ≤ length ranks.now }
        ensures place { 1 ≤ result → place_on 0 (take 2 ranks.now) (forest_in arena.now first) ≡ result }
        ensures firm { 1 ≤ result → IsFirm arena.now.nodes.items result }
        ensures entry { 1 ≤ result →
            entry self.now (slice_index ranks.now 0) (slice_index ranks.now 1) ≡ result }
    {
        if ranks.len() < 3 {
            return 0;
        }
        let place = self.place(ranks);
        if place == 0 {
            return 0;
        }
        if arena.is_firm(place) {
            return place;
        }
        0
    }

    /// Takes `count` ballots out at a root, as `Arena::take_out` does, and passes no sibling of the
    /// first two ranks where their node is known and stays.
    pub(crate) fn take_out<L: Ledger>(
        &mut self,
        arena: &mut Arena,
        ends: u32,
        first: u32,
        ranks: &[u32],
        count: u32,
        steps: &mut Steps<L>,
    ) -> (u32, u32)
        requires apart { IsApart arena.old first }
        requires held { count ≤ count_of ranks.now (root_bag ends (forest_in arena.old first)) }
        requires rising { IsRising 0 (forest_in arena.old first) }
        requires numbers { All (λ r. (1 ≤ r) × (r ≤ self.old.candidates)) ranks.now }
        requires some { 1 ≤ count }
        requires few { self.old.candidates ≤ MOST_CANDIDATES }
        requires known { KnowsPlaces self.old (forest_in arena.old first) }
        ensures apart { IsApart arena.new result.1 }
        ensures bag { IsPermutation (root_bag ends (forest_in arena.old first))
            (replicate count ranks.now ++ root_bag result.0 (forest_in arena.new result.1)) }
        ensures rising { IsRising 0 (forest_in arena.new result.1) }
        ensures nodes { node_count (forest_in arena.new result.1) + arena.new.spare
            ≡ node_count (forest_in arena.old first) + arena.old.spare }
        ensures room { arena.old.spare ≤ arena.new.spare }
        ensures candidates { self.new.candidates ≡ self.old.candidates }
        ensures known { KnowsPlaces self.new (forest_in arena.new result.1) }
        ensures cost { steps.new ≡ steps.old + length ranks.now + 1 }
    {
        let place = self.firm_place(arena, first, ranks);
        if place != 0 {
            let first = arena.take_out_from(first, place, ranks, count, steps);
            return (ends, first);
        }
        let (ends, first) = arena.take_out(ends, first, ranks, count, steps);
        if ranks.len() >= 2 {
            self.set(ranks[0], ranks[1], 0);
        }
        (ends, first)
    }
}
