// A node of a trie.

/// What is at a place of the list of nodes: a candidate, how many ballots end there, the place
/// of the first node below it, and that of its next sibling. Places count from 1, and 0 is none.
#[derive(Clone, Copy, Drop)]
pub(crate) struct Node {
    pub(crate) candidate: u16,
    pub(crate) ends: u32,
    pub(crate) first: u32,
    pub(crate) next: u32,
}
