// Why a text is refused.

/// Why a text of PrefLib is refused.
#[derive(Clone, Copy, Debug, PartialEq, Eq)]
pub enum PrefKind {
    /// A control byte, or a byte that begins no part of an order.
    BadByte,
    EmptyLine,
    /// The number of candidates is missing, or none of 1 to 250.
    BadHeader,
    /// The number of voters is none, or another part of an order is expected.
    BadNumber,
    NameExpected,
    BadName,
    TooLongName,
    BadWithdrawn,
    NoSuchCandidate,
    Repeated,
    TooManyBallots,
    EqualRank,
    /// The number of voters is not that of the ballots.
    WrongTotal,
}
