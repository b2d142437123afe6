// Siblings of a trie.
ghost use Rattle.std.specs.Prelude.{◌≡◌, ℕ, IfSome, IfNone};
ghost use Rattle.ranking_trie.specs.Forest.{Empty, Grow};
ghost use Rattle.ranking_trie.specs.Places.{BeginsAt};
ghost use Rattle.ranking_trie.specs.Siblings.{forest_of};

use crate::node::Node;
use std::marker::Model;

/// The nodes of siblings, by rising candidate, and all below them.
#[derive(Drop)]
pub struct Siblings<'a> {
    nodes: &'a [Node],
    first: u32,
}

impl<'a> Model for Siblings<'a> {
    ghost use Rattle.ranking_trie.specs.Places.{BeginsAt};
    ghost use Rattle.ranking_trie.specs.Siblings.{SiblingsSeen};

    ghost Value = { SiblingsSeen };

    ghost view = { λ s. record { nodes = s.nodes.now; first = s.first } };

    ghost invariant = { λ s. BeginsAt s.nodes.now s.first };
}

/// The first of siblings: its candidate, how many ballots end at it, and what is below and after
/// it.
#[derive(Drop)]
pub struct Sibling<'a> {
    pub candidate: u16,
    pub ends: u32,
    pub inner: Siblings<'a>,
    pub next: Siblings<'a>,
}

impl<'a> Siblings<'a> {
    /// The siblings that begin at a place of a list.
    pub(crate) fn new(nodes: &'a [Node], first: u32) -> Siblings<'a>
        requires { BeginsAt nodes.now first }
        ensures { result ≡ record { nodes = nodes.now; first = first } }
    {
        Siblings { nodes, first }
    }

    /// The first of them, if there is one.
    pub fn first(&self) -> Option<Sibling<'a>>
        ensures some { IfSome result (λ node. (place : ℕ) × (forest_of self.now
            ≡ Grow node.candidate node.ends place (forest_of node.inner) (forest_of node.next))) }
        ensures none { IfNone result (forest_of self.now ≡ Empty) }
    {
        if self.first == 0 {
            return None;
        }
        let nodes = self.nodes;
        let node = nodes[self.first as usize - 1];
        Some(Sibling {
            candidate: node.candidate,
            ends: node.ends,
            inner: Siblings::new(nodes, node.first),
            next: Siblings::new(nodes, node.next),
        })
    }
}
