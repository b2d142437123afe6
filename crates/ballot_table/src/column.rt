// What a column is of.

/// What a column is of.
#[derive(Clone, Copy, Debug, PartialEq, Eq)]
pub enum Column {
    /// The number of ballots that the row stands for.
    Weight,
    PassedOver,
    /// The ranks that this candidate has.
    Candidate(u32),
    /// The candidates that have this rank.
    Rank(u32),
    /// Candidates by rising rank, with semicolons between them.
    List,
}
