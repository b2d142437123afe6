// Ballots put into a trie.
ghost use Rattle.std.specs.Prelude.{◌≡◌, ◌+◌, ◌-◌, ◌^◌, ◌<◌, ◌≤◌, ◌++◌, length, take, drop, replicate, All, IsPermutation};
ghost use Rattle.plain_ballots.specs.declared.limits.TheConstants.{MOST_CANDIDATES};
ghost use Rattle.ranking_trie.specs.Bag.{bag, node_count, root_bag, IsRising};
ghost use Rattle.ranking_trie.specs.Arena.{forest_in, IsApart, IsMoved};
ghost use Rattle.ranking_trie.specs.Fronts.{place_on, KeepsPlaces};

use crate::arena::Arena;
use plain_ballots::Steps;
use std::sync::ledger::Ledger;

impl Arena {
    /// Puts `count` ballots in at the root, and gives how many then end there, and where the
    /// siblings below it begin. One step visits one node.
    pub(crate) fn put<L: Ledger>(
        &mut self,
        ends: u32,
        first: u32,
        ranks: &[u32],
        count: u32,
        steps: &mut Steps<L>,
    ) -> (u32, u32)
        requires apart { IsApart self.old first }
        requires room { length ranks.now ≤ self.old.spare }
        requires few { length (root_bag ends (forest_in self.old first)) + count < 2 ^ 32 }
        requires rising { IsRising 0 (forest_in self.old first) }
        requires numbers { All (λ r. (1 ≤ r) × (r ≤ MOST_CANDIDATES)) ranks.now }
        requires some { 1 ≤ count }
        ensures apart { IsApart self.new result.1 }
        ensures bag { IsPermutation (root_bag result.0 (forest_in self.new result.1))
            (replicate count ranks.now ++ root_bag ends (forest_in self.old first)) }
        ensures rising { IsRising 0 (forest_in self.new result.1) }
        ensures nodes { node_count (forest_in self.new result.1) + self.new.spare
            ≡ node_count (forest_in self.old first) + self.old.spare }
        ensures room { self.old.spare ≤ self.new.spare + length ranks.now }
        ensures kept { KeepsPlaces (forest_in self.old first) (forest_in self.new result.1) }
        ensures cost { steps.new ≡ steps.old + length ranks.now + 1 }
    {
        steps.tick();
        if ranks.len() == 0 {
            return (ends + count, first);
        }
        (ends, self.add(first, ranks, count, 0, steps))
    }

    /// Puts `count` ballots in as `put` does, at the node of their first two ranks and below it, whose
    /// place is known. Gives where the siblings below the root then begin.
    pub(crate) fn put_from<L: Ledger>(
        &mut self,
        first: u32,
        place: u32,
        ranks: &[u32],
        count: u32,
        steps: &mut Steps<L>,
    ) -> u32
        requires apart { IsApart self.old first }
        requires two { 2 ≤ length ranks.now }
        requires place { place_on 0 (take 2 ranks.now) (forest_in self.old first) ≡ place }
        requires found { 1 ≤ place }
        requires room { length ranks.now ≤ self.old.spare }
        requires few { length (bag (forest_in self.old first)) + count < 2 ^ 32 }
        requires rising { IsRising 0 (forest_in self.old first) }
        requires numbers { All (λ r. (1 ≤ r) × (r ≤ MOST_CANDIDATES)) ranks.now }
        requires some { 1 ≤ count }
        ensures moved { IsMoved self.old first self.new result }
        ensures bag { IsPermutation (bag (forest_in self.new result))
            (replicate count ranks.now ++ bag (forest_in self.old first)) }
        ensures rising { IsRising 0 (forest_in self.new result) }
        ensures room { self.old.spare ≤ self.new.spare + length ranks.now }
        ensures kept { KeepsPlaces (forest_in self.old first) (forest_in self.new result) }
        ensures cost { steps.new ≡ steps.old + length ranks.now + 1 }
    {
        steps.tick();
        steps.tick();
        steps.tick();
        if ranks.len() == 2 {
            self.end_at(place, count);
            return first;
        }
        let below = self.node(place).first;
        let below = self.add(below, ranks, count, 2, steps);
        self.lead_down(place, below);
        first
    }

    /// Puts `count` ballots with the ranks from `at` on among siblings, and gives where these then
    /// begin. One step visits one node.
    fn add<L: Ledger>(
        &mut self,
        first: u32,
        ranks: &[u32],
        count: u32,
        at: usize,
        steps: &mut Steps<L>,
    ) -> u32
        requires apart { IsApart self.old first }
        requires ranked { at < length ranks.now }
        requires room { length ranks.now ≤ self.old.spare + at }
        requires few { length (bag (forest_in self.old first)) + count < 2 ^ 32 }
        requires rising { IsRising 0 (forest_in self.old first) }
        requires numbers { All (λ r. (1 ≤ r) × (r ≤ MOST_CANDIDATES)) ranks.now }
        requires some { 1 ≤ count }
        ensures moved { IsMoved self.old first self.new result }
        ensures bag { IsPermutation (bag (forest_in self.new result))
            (replicate count (drop at ranks.now) ++ bag (forest_in self.old first)) }
        ensures rising { IsRising 0 (forest_in self.new result) }
        ensures room { self.old.spare + at ≤ self.new.spare + length ranks.now }
        ensures kept { KeepsPlaces (forest_in self.old first) (forest_in self.new result) }
        ensures cost { steps.new ≡ steps.old + (length ranks.now - at) }
    {
        steps.tick();
        let (first, place) = self.place_of(first, ranks[at] as u16);
        if at + 1 == ranks.len() {
            self.end_at(place, count);
            return first;
        }
        let below = self.node(place).first;
        let below = self.add(below, ranks, count, at + 1, steps);
        self.lead_down(place, below);
        first
    }
}
