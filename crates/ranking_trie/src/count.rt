// How many ballots have a ranking.
ghost use Rattle.std.specs.Prelude.{◌≡◌, ℕ, List, ◌∷◌, IfSome, IfNone};
ghost use Rattle.ranking_trie.specs.Bag.{bag, root_bag, IsRising};
ghost use Rattle.ranking_trie.specs.BallotBag.{count_of};
ghost use Rattle.ranking_trie.specs.Siblings.{forest_of};

use crate::Siblings;

/// How many ballots at a root and in the forest below it have just these ranks.
pub(crate) fn count(ends: u32, forest: Siblings, ranks: &[u32]) -> u32
    requires { IsRising 0 (forest_of forest) }
    ensures { result ≡ count_of ranks.now (root_bag ends (forest_of forest.entry)) }
{
    let mut ends = ends;
    let mut forest = forest;
    for rank in ranks {
        match find(forest, *rank) {
            Some((ends_there, inner)) => {
                ends = ends_there;
                forest = inner;
            }
            None => return 0,
        }
    }
    ends
}

/// The node of a candidate among siblings: how many ballots end at it, and what is below it.
fn find(forest: Siblings, c: u32) -> Option<(u32, Siblings)>
    requires { IsRising 0 (forest_of forest) }
    ensures rising { IfSome result (λ node. IsRising 0 (forest_of node.1)) }
    ensures found { IfSome result (λ node. (s : List ℕ) →
        count_of s (root_bag node.0 (forest_of node.1)) ≡ count_of (c ∷ s) (bag (forest_of forest.entry))) }
    ensures missing { IfNone result ((s : List ℕ) → count_of (c ∷ s) (bag (forest_of forest.entry)) ≡ 0) }
{
    let mut rest = forest;
    while let Some(node) = rest.first() {
        if c == node.candidate as u32 {
            return Some((node.ends, node.inner));
        }
        if c < node.candidate as u32 {
            return None;
        }
        rest = node.next;
    }
    None
}
