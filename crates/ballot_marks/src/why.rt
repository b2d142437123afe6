// Why a mark is refused.

/// Why a mark is refused, and with it the ballot.
#[derive(Clone, Copy, Debug, PartialEq, Eq)]
pub enum Why {
    /// Ranks before it are skipped.
    SkippedRank,
    /// It says more than one candidate.
    EqualRank,
    /// It says a candidate that a mark before it says.
    Repeated,
}
