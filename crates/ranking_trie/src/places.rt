// A candidate's place among siblings.
ghost use Rattle.std.specs.Prelude.{◌-◌, ◌≤◌};
ghost use Rattle.ranking_trie.specs.Bag.{IsRising};
ghost use Rattle.ranking_trie.specs.Places.{forest_at, BeginsAt};
ghost use Rattle.ranking_trie.specs.Arena.{IsPassed};

use crate::node::Node;

/// The last sibling before a candidate and the first one that is not, where there are such.
pub(crate) fn find_place(nodes: &[Node], first: u32, c: u16) -> (u32, u32)
    requires begins { BeginsAt nodes.now first }
    requires number { 1 ≤ c }
    requires rising { IsRising 0 (forest_at nodes.now first) }
    ensures parted { IsPassed nodes.now first c result.0 result.1 }
    ensures rising { IsRising (c - 1) (forest_at nodes.now result.1) }
{
    let mut before = 0;
    let mut at = first;
    while at != 0 {
        let node = nodes[at as usize - 1];
        if c <= node.candidate {
            return (before, at);
        }
        before = at;
        at = node.next;
    }
    (before, 0)
}
