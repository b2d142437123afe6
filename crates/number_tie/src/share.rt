//! What one holder of a part of a tie knows of it. It is in proofs alone.

/// A share of a tie. No value of it is ever made.
pub struct Share {
    /// 1 for a half, 2 for both halves together, 0 for a share that another took in.
    pub parts: u64,
    /// The number of this share.
    pub number: u64,
    /// The number of the share that was taken in last, or of this one.
    pub beside: u64,
}
