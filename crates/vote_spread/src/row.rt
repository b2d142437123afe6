// A candidate that some ballots reach.

/// A candidate that keeps something of each of some ballots that go through the same candidates
/// before it.
#[derive(Clone, Copy)]
pub(crate) struct Row {
    /// How many ballots reach it so.
    pub(crate) ballots: u32,
    pub(crate) candidate: u8,
    /// How many candidates that keep something they have gone through then, with itself.
    pub(crate) depth: u8,
}
