// Ballots taken out of a trie.
ghost use Rattle.std.specs.Prelude.{◌≡◌, ◌+◌, ◌-◌, ◌<◌, ◌≤◌, ◌++◌, length, take, drop, replicate, All, IsPermutation};
ghost use Rattle.plain_ballots.specs.declared.limits.TheConstants.{MOST_CANDIDATES};
ghost use Rattle.ranking_trie.specs.Bag.{bag, node_count, root_bag, IsRising};
ghost use Rattle.ranking_trie.specs.BallotBag.{count_of};
ghost use Rattle.ranking_trie.specs.Arena.{forest_in, IsApart, IsMoved};
ghost use Rattle.ranking_trie.specs.Fronts.{place_on, IsFirm, KeepsOthers};

use crate::arena::Arena;
use plain_ballots::Steps;
use std::sync::ledger::Ledger;

impl Arena {
    /// Takes `count` ballots out at the root, and gives how many then end there, and where the
    /// siblings below it begin. One step visits one node.
    pub(crate) fn take_out<L: Ledger>(
        &mut self,
        ends: u32,
        first: u32,
        ranks: &[u32],
        count: u32,
        steps: &mut Steps<L>,
    ) -> (u32, u32)
        requires apart { IsApart self.old first }
        requires held { count ≤ count_of ranks.now (root_bag ends (forest_in self.old first)) }
        requires rising { IsRising 0 (forest_in self.old first) }
        requires numbers { All (λ r. (1 ≤ r) × (r ≤ MOST_CANDIDATES)) ranks.now }
        requires some { 1 ≤ count }
        ensures apart { IsApart self.new result.1 }
        ensures bag { IsPermutation (root_bag ends (forest_in self.old first))
            (replicate count ranks.now ++ root_bag result.0 (forest_in self.new result.1)) }
        ensures rising { IsRising 0 (forest_in self.new result.1) }
        ensures nodes { node_count (forest_in self.new result.1) + self.new.spare
            ≡ node_count (forest_in self.old first) + self.old.spare }
        ensures room { self.old.spare ≤ self.new.spare }
        ensures kept { KeepsOthers ranks.now (forest_in self.old first) (forest_in self.new result.1) }
        ensures cost { steps.new ≡ steps.old + length ranks.now + 1 }
    {
        steps.tick();
        if ranks.len() == 0 {
            return (ends - count, first);
        }
        (ends, self.remove(first, ranks, count, 0, steps))
    }

    /// Takes `count` ballots out as `take_out` does, below the node of their first two ranks, whose
    /// place is known and which keeps a ballot. Gives where the siblings below the root then begin.
    pub(crate) fn take_out_from<L: Ledger>(
        &mut self,
        first: u32,
        place: u32,
        ranks: &[u32],
        count: u32,
        steps: &mut Steps<L>,
    ) -> u32
        requires apart { IsApart self.old first }
        requires longer { 3 ≤ length ranks.now }
        requires place { place_on 0 (take 2 ranks.now) (forest_in self.old first) ≡ place }
        requires found { 1 ≤ place }
        requires firm { IsFirm self.old.nodes.items place }
        requires held { count ≤ count_of ranks.now (bag (forest_in self.old first)) }
        requires rising { IsRising 0 (forest_in self.old first) }
        requires numbers { All (λ r. (1 ≤ r) × (r ≤ MOST_CANDIDATES)) ranks.now }
        requires some { 1 ≤ count }
        ensures moved { IsMoved self.old first self.new result }
        ensures bag { IsPermutation (bag (forest_in self.old first))
            (replicate count ranks.now ++ bag (forest_in self.new result)) }
        ensures rising { IsRising 0 (forest_in self.new result) }
        ensures room { self.old.spare ≤ self.new.spare }
        ensures kept { KeepsOthers ranks.now (forest_in self.old first) (forest_in self.new result) }
        ensures there { place_on 0 (take 2 ranks.now) (forest_in self.new result) ≡ place }
        ensures cost { steps.new ≡ steps.old + length ranks.now + 1 }
    {
        steps.tick();
        steps.tick();
        steps.tick();
        let below = self.node(place).first;
        let below = self.remove(below, ranks, count, 2, steps);
        self.lead_down(place, below);
        first
    }

    /// Takes `count` ballots with the ranks from `at` on out of siblings, and gives where these
    /// then begin. One step visits one node.
    fn remove<L: Ledger>(
        &mut self,
        first: u32,
        ranks: &[u32],
        count: u32,
        at: usize,
        steps: &mut Steps<L>,
    ) -> u32
        requires apart { IsApart self.old first }
        requires ranked { at < length ranks.now }
        requires held { count ≤ count_of (drop at ranks.now) (bag (forest_in self.old first)) }
        requires rising { IsRising 0 (forest_in self.old first) }
        requires numbers { All (λ r. (1 ≤ r) × (r ≤ MOST_CANDIDATES)) ranks.now }
        requires some { 1 ≤ count }
        ensures moved { IsMoved self.old first self.new result }
        ensures bag { IsPermutation (bag (forest_in self.old first))
            (replicate count (drop at ranks.now) ++ bag (forest_in self.new result)) }
        ensures rising { IsRising 0 (forest_in self.new result) }
        ensures room { self.old.spare ≤ self.new.spare }
        ensures kept { KeepsOthers (drop at ranks.now) (forest_in self.old first) (forest_in self.new result) }
        ensures cost { steps.new ≡ steps.old + (length ranks.now - at) }
    {
        steps.tick();
        let (before, place) = self.held_place(first, ranks[at] as u16);
        if at + 1 == ranks.len() {
            self.end_fewer(place, count);
            return self.drop_idle(first, before, place);
        }
        let below = self.node(place).first;
        let below = self.remove(below, ranks, count, at + 1, steps);
        self.lead_down(place, below);
        self.drop_idle(first, before, place)
    }
}
