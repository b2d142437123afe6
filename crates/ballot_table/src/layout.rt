// What the columns of a table are of.

/// What the columns of a table are of.
#[derive(Clone, Copy, Debug, PartialEq, Eq)]
pub enum Layout {
    /// A column for each candidate, with ranks in its cells.
    Ranks,
    /// A column for each rank, with candidates in its cells.
    Choices,
    /// One column of candidates by rising rank.
    List,
}
