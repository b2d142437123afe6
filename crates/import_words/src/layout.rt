// The forms of tables and texts that are read.

/// The form of what is read.
#[derive(Clone, Copy, Debug, PartialEq, Eq)]
pub enum Layout {
    /// A table with a column for each candidate, whose cells are ranks.
    Ranks,
    /// A table with a column for each choice, whose cells name candidates.
    Choices,
    /// A table with one column of lists of candidates.
    List,
    /// A text of PrefLib's.
    Preflib,
}
