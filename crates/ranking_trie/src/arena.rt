// The nodes of a trie in one list.
ghost use Rattle.std.specs.Prelude.{◌≡◌, ◌≢◌, true, false, ℕ, ◌+◌, ◌-◌, ◌^◌, ◌<◌, ◌≤◌, List, [], ◌∷◌, length, slice_set, IfOk, OnOk};
ghost use Rattle.ranking_trie.specs.Bag.{bag, IsRising};
ghost use Rattle.ranking_trie.specs.BallotBag.{count_of};
ghost use Rattle.ranking_trie.specs.Places.{node_at, BeginsAt};
ghost use Rattle.ranking_trie.specs.Siblings.{forest_of};
ghost use Rattle.ranking_trie.specs.Arena.{forest_in, IsApart, IsMoved, HasNode};
ghost use Rattle.ranking_trie.specs.Fronts.{place_on, IsFirm, KeepsPlaces, KeepsOthers};

use crate::node::Node;
use crate::places::find_place;
use crate::{NoMemory, Siblings};
use std::alloc::Global;

/// The nodes of a trie in one list: those in use, and those to spare, of which each leads to the
/// next. Places in the list count from 1, and 0 is none.
#[derive(Drop)]
pub(crate) struct Arena {
    nodes: Vec<Node>,
    free: u32,
    spare: usize,
}

impl Arena {
    /// No nodes.
    pub(crate) fn new(alloc: Global) -> Arena
        ensures nodes { result.nodes.items ≡ [] }
        ensures free { result.free ≡ 0 }
        ensures spare { result.spare ≡ 0 }
    {
        Arena {
            nodes: Vec::new(alloc),
            free: 0,
            spare: 0,
        }
    }

    /// The same list, in which no node is to spare.
    pub(crate) fn copy(&self, alloc: Global) -> Result<Arena, NoMemory>
        ensures nodes { IfOk result (λ copy. copy.nodes.items ≡ self.now.nodes.items) }
        ensures free { IfOk result (λ copy. copy.free ≡ 0) }
        ensures spare { IfOk result (λ copy. copy.spare ≡ 0) }
    {
        let mut nodes = Vec::new(alloc);
        nodes.extend_from_slice(self.nodes.as_slice())?;
        Ok(Arena {
            nodes,
            free: 0,
            spare: 0,
        })
    }

    /// The list.
    fn nodes(&self) -> &[Node]
        ensures { result.now ≡ self.now.nodes.items }
    {
        self.nodes.as_slice()
    }

    /// The siblings that begin at a place.
    pub(crate) fn siblings(&self, first: u32) -> Siblings
        requires { BeginsAt self.now.nodes.items first }
        ensures { forest_of result ≡ forest_in self.now first }
    {
        Siblings::new(self.nodes(), first)
    }

    /// How many nodes there are, with those to spare.
    pub(crate) fn len(&self) -> usize
        ensures { result ≡ length self.now.nodes.items }
    {
        self.nodes.len()
    }

    /// How many nodes are to spare.
    pub(crate) fn spare(&self) -> usize
        ensures { result ≡ self.now.spare }
    {
        self.spare
    }

    /// Makes nodes until so many are to spare.
    pub(crate) fn reserve(&mut self, ranks: usize) -> Result<(), NoMemory>
        ensures same { (first : ℕ) → IsApart self.old first → IsApart self.new first }
        ensures forest { (first : ℕ) → IsApart self.old first →
            forest_in self.new first ≡ forest_in self.old first }
        ensures more { self.old.spare ≤ self.new.spare }
        ensures room { OnOk result (ranks ≤ self.new.spare) }
    {
        while self.spare < ranks {
            self.push_spare()?;
        }
        Ok(())
    }

    /// Makes one more node to spare. There are as many places as numbers of 32 bits.
    fn push_spare(&mut self) -> Result<(), NoMemory>
        requires { self.old.spare < usize.MAX }
        ensures same { (first : ℕ) → IsApart self.old first → IsApart self.new first }
        ensures forest { (first : ℕ) → IsApart self.old first →
            forest_in self.new first ≡ forest_in self.old first }
        ensures more { self.old.spare ≤ self.new.spare }
        ensures one { OnOk result (self.new.spare ≡ self.old.spare + 1) }
    {
        let place = self.nodes.len() + 1;
        if place > u32::MAX as usize {
            return Err(NoMemory);
        }
        self.nodes.push(Node {
            candidate: 0,
            ends: 0,
            first: 0,
            next: self.free,
        })?;
        self.free = place as u32;
        self.spare += 1;
        Ok(())
    }

    /// The node at a place.
    pub(crate) fn node(&self, place: u32) -> Node
        requires some { 1 ≤ place }
        requires within { place ≤ length self.now.nodes.items }
        ensures { result ≡ node_at self.now.nodes.items place }
    {
        self.nodes[place as usize - 1]
    }

    /// Writes the node at a place.
    fn set(&mut self, place: u32, node: Node)
        requires some { 1 ≤ place }
        requires within { place ≤ length self.old.nodes.items }
        ensures nodes { self.new.nodes.items ≡ slice_set self.old.nodes.items (place - 1) node }
        ensures free { self.new.free ≡ self.old.free }
        ensures spare { self.new.spare ≡ self.old.spare }
    {
        self.nodes[place as usize - 1] = node;
    }
}

impl Arena {
    /// Whether a place is that of a candidate's node.
    fn is_of(&self, place: u32, c: u16) -> bool
        requires { place ≤ length self.now.nodes.items }
        ensures same { result ≡ true →
            (1 ≤ place) × ((node_at self.now.nodes.items place).candidate ≡ c) }
        ensures other { result ≡ false →
            1 ≤ place → (node_at self.now.nodes.items place).candidate ≢ c }
    {
        place != 0 && self.node(place).candidate == c
    }

    /// Takes a node that is to spare, and makes it a candidate's, with no ballots yet, before a
    /// sibling.
    fn take(&mut self, candidate: u16, next: u32) -> u32
        requires some { 1 ≤ self.old.free }
        requires within { self.old.free ≤ length self.old.nodes.items }
        requires room { 1 ≤ self.old.spare }
        ensures place { result ≡ self.old.free }
        ensures nodes { self.new.nodes.items ≡ slice_set self.old.nodes.items (self.old.free - 1)
            (record { candidate = candidate; ends = 0; first = 0; next = next }) }
        ensures free { self.new.free ≡ (node_at self.old.nodes.items self.old.free).next }
        ensures spare { self.new.spare + 1 ≡ self.old.spare }
    {
        let place = self.free;
        self.free = self.node(place).next;
        self.spare -= 1;
        let node = Node {
            candidate,
            ends: 0,
            first: 0,
            next,
        };
        self.set(place, node);
        place
    }

    /// Gives a node back to those to spare.
    fn give_back(&mut self, place: u32)
        requires some { 1 ≤ place }
        requires within { place ≤ length self.old.nodes.items }
        requires counted { self.old.spare < usize.MAX }
        ensures nodes { self.new.nodes.items ≡ slice_set self.old.nodes.items (place - 1)
            (record { candidate = 0; ends = 0; first = 0; next = self.old.free }) }
        ensures free { self.new.free ≡ place }
        ensures spare { self.new.spare ≡ self.old.spare + 1 }
    {
        let node = Node {
            candidate: 0,
            ends: 0,
            first: 0,
            next: self.free,
        };
        self.set(place, node);
        self.free = place;
        self.spare += 1;
    }

    /// Lets the sibling at `before` lead to a place, or the siblings begin there where none is
    /// before. Gives where they begin.
    fn lead(&mut self, first: u32, before: u32, to: u32) -> u32
        requires { before ≤ length self.old.nodes.items }
        ensures begin { before ≡ 0 → result ≡ to }
        ensures untouched { before ≡ 0 → self.new.nodes.items ≡ self.old.nodes.items }
        ensures behind { 1 ≤ before → result ≡ first }
        ensures linked { 1 ≤ before → self.new.nodes.items ≡ slice_set self.old.nodes.items (before - 1)
            (record (node_at self.old.nodes.items before) { next = to }) }
        ensures free { self.new.free ≡ self.old.free }
        ensures spare { self.new.spare ≡ self.old.spare }
    {
        if before == 0 {
            return to;
        }
        let node = Node {
            next: to,
            ..self.node(before)
        };
        self.set(before, node);
        first
    }

    /// The place of a candidate's node among siblings, which is new where none was there, and
    /// where the siblings then begin.
    pub(crate) fn place_of(&mut self, first: u32, c: u16) -> (u32, u32)
        requires apart { IsApart self.old first }
        requires number { 1 ≤ c }
        requires rising { IsRising 0 (forest_in self.old first) }
        requires room { 1 ≤ self.old.spare }
        ensures moved { IsMoved self.old first self.new result.0 }
        ensures node { (before : ℕ) × HasNode (forest_in self.new result.0) c before result.1 }
        ensures bag { bag (forest_in self.new result.0) ≡ bag (forest_in self.old first) }
        ensures kept { KeepsPlaces (forest_in self.old first) (forest_in self.new result.0) }
        ensures room { self.old.spare ≤ self.new.spare + 1 }
    {
        let (before, at) = find_place(self.nodes(), first, c);
        if self.is_of(at, c) {
            return (first, at);
        }
        let new = self.take(c, at);
        (self.lead(first, before, new), new)
    }

    /// The last sibling before a candidate and the candidate's node, where ballots begin with it.
    pub(crate) fn held_place(&self, first: u32, c: u16) -> (u32, u32)
        requires apart { IsApart self.now first }
        requires number { 1 ≤ c }
        requires rising { IsRising 0 (forest_in self.now first) }
        requires held { (s : List ℕ) × (1 ≤ count_of (c ∷ s) (bag (forest_in self.now first))) }
        ensures { HasNode (forest_in self.now first) c result.0 result.1 }
    {
        find_place(self.nodes(), first, c)
    }

    /// The place of a candidate's node among siblings, or 0.
    fn seek(&self, first: u32, c: u16) -> u32
        requires apart { IsApart self.now first }
        requires number { 1 ≤ c }
        requires rising { IsRising 0 (forest_in self.now first) }
        ensures { 1 ≤ result → (before : ℕ) × HasNode (forest_in self.now first) c before result }
    {
        let (_, at) = find_place(self.nodes(), first, c);
        if self.is_of(at, c) {
            return at;
        }
        0
    }

    /// The place of the node of a candidate below that of another, or 0.
    pub(crate) fn place_of_two(&self, first: u32, c: u16, d: u16) -> u32
        requires apart { IsApart self.now first }
        requires numbers { (1 ≤ c) × (1 ≤ d) }
        requires rising { IsRising 0 (forest_in self.now first) }
        ensures { 1 ≤ result → place_on 0 (c ∷ d ∷ []) (forest_in self.now first) ≡ result }
    {
        let at = self.seek(first, c);
        if at == 0 {
            return 0;
        }
        let below = self.node(at).first;
        self.seek(below, d)
    }

    /// Whether a node keeps a ballot where ballots with a ranking that goes on below it are taken out.
    pub(crate) fn is_firm(&self, place: u32) -> bool
        requires some { 1 ≤ place }
        requires within { place ≤ length self.now.nodes.items }
        requires below { BeginsAt self.now.nodes.items (node_at self.now.nodes.items place).first }
        ensures { result ≡ true → IsFirm self.now.nodes.items place }
    {
        let node = self.node(place);
        if node.ends > 0 {
            return true;
        }
        if node.first == 0 {
            return false;
        }
        self.node(node.first).next > 0
    }

    /// Lets as many more ballots end at the node at a place.
    pub(crate) fn end_at(&mut self, place: u32, count: u32)
        requires some { 1 ≤ place }
        requires within { place ≤ length self.old.nodes.items }
        requires few { (node_at self.old.nodes.items place).ends + count < 2 ^ 32 }
        ensures nodes { self.new.nodes.items ≡ slice_set self.old.nodes.items (place - 1)
            (record (node_at self.old.nodes.items place)
            { ends = (node_at self.old.nodes.items place).ends + count }) }
        ensures free { self.new.free ≡ self.old.free }
        ensures spare { self.new.spare ≡ self.old.spare }
    {
        let node = self.node(place);
        let ended = Node {
            ends: node.ends + count,
            ..node
        };
        self.set(place, ended);
    }

    /// Lets as many ballots fewer end at the node at a place.
    pub(crate) fn end_fewer(&mut self, place: u32, count: u32)
        requires some { 1 ≤ place }
        requires within { place ≤ length self.old.nodes.items }
        requires held { count ≤ (node_at self.old.nodes.items place).ends }
        ensures nodes { self.new.nodes.items ≡ slice_set self.old.nodes.items (place - 1)
            (record (node_at self.old.nodes.items place)
            { ends = (node_at self.old.nodes.items place).ends - count }) }
        ensures free { self.new.free ≡ self.old.free }
        ensures spare { self.new.spare ≡ self.old.spare }
    {
        let node = self.node(place);
        let ended = Node {
            ends: node.ends - count,
            ..node
        };
        self.set(place, ended);
    }

    /// Lets the nodes below the node at a place begin at another.
    pub(crate) fn lead_down(&mut self, place: u32, below: u32)
        requires some { 1 ≤ place }
        requires within { place ≤ length self.old.nodes.items }
        ensures nodes { self.new.nodes.items ≡ slice_set self.old.nodes.items (place - 1)
            (record (node_at self.old.nodes.items place) { first = below }) }
        ensures free { self.new.free ≡ self.old.free }
        ensures spare { self.new.spare ≡ self.old.spare }
    {
        let node = Node {
            first: below,
            ..self.node(place)
        };
        self.set(place, node);
    }

    /// Takes a node out of its siblings, and gives it back, where it has no ballot. Gives where
    /// the siblings then begin.
    pub(crate) fn drop_idle(&mut self, first: u32, before: u32, place: u32) -> u32
        requires apart { IsApart self.old first }
        requires node { (c : ℕ) × HasNode (forest_in self.old first) c before place }
        ensures moved { IsMoved self.old first self.new result }
        ensures bag { bag (forest_in self.new result) ≡ bag (forest_in self.old first) }
        ensures rising { IsRising 0 (forest_in self.new result) }
        ensures kept { (c : ℕ) → HasNode (forest_in self.old first) c before place →
            KeepsOthers (c ∷ []) (forest_in self.old first) (forest_in self.new result) }
        ensures room { self.old.spare ≤ self.new.spare }
    {
        let node = self.node(place);
        if node.ends > 0 {
            return first;
        }
        if node.first != 0 {
            return first;
        }
        self.give_back(place);
        self.lead(first, before, node.next)
    }
}
