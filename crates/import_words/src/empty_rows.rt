// Rows whose ballot ranks nobody.

/// What becomes of a row whose ballot ranks nobody.
#[derive(Clone, Copy, Debug, PartialEq, Eq)]
pub enum EmptyRows {
    Refuse,
    /// It stands for empty ballots.
    Keep,
    /// It stands for no ballots.
    LeaveOut,
}
