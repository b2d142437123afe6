/// What a line of a table of rounds is about.
#[derive(Clone, Copy, Debug, PartialEq, Eq)]
pub enum Entry {
    /// The numbers of the rounds.
    Round,
    Quota,
    /// The votes on no candidate.
    LeftOver,
    /// The candidate at this place.
    Candidate(usize),
}
