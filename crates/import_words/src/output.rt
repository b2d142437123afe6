// What is written.

/// What is written of the ballots that were read.
#[derive(Clone, Copy, Debug, PartialEq, Eq)]
pub enum Output {
    /// An election file.
    Blt,
    /// Numbers that say what became of the rows.
    Report,
}
