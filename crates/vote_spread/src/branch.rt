// A node of a trie, packed.

/// The beginning of some rankings. Where nothing else is below it, the candidates that follow on
/// all its ballots are its tail.
#[derive(Clone, Copy)]
pub(crate) struct Branch {
    /// How many ballots begin so.
    pub(crate) ballots: u32,
    /// How many branches it and those below it are.
    pub(crate) skip: u32,
    /// Where its tail begins, among the tails of all branches.
    pub(crate) tail: u32,
    /// How many candidates the beginning has.
    pub(crate) depth: u8,
    /// The last of them.
    pub(crate) candidate: u8,
    /// How many candidates the tail has.
    pub(crate) length: u8,
}
