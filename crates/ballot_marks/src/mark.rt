// A rank that is not blank.
use crate::Says;

/// A rank of a ballot that is not blank, with the number of ranks that were skipped right before it: those
/// after the mark before it, or before it where it is the first.
#[derive(Clone, Copy, Debug, PartialEq, Eq)]
pub struct Mark {
    pub skipped: u32,
    pub says: Says,
}
