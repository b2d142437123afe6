// What becomes of a mark.
use crate::Why;

/// What becomes of a mark.
#[derive(Clone, Copy, Debug, PartialEq, Eq)]
pub enum Way {
    /// Its candidate has the next rank of the ballot.
    Ranked,
    /// It has no effect.
    Passed,
    /// The ballot ends before it.
    Cut,
    /// The ballot is refused.
    Refused(Why),
}
