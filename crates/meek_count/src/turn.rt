/// What a step of a count did.
#[derive(Clone, Copy, Debug, PartialEq, Eq)]
pub enum Turn {
    /// One iteration was made.
    Iterated,
    /// The count is at its end.
    Finished,
}
