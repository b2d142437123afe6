// Why a table is refused.

/// Why a table is refused.
#[derive(Clone, Copy, Debug, PartialEq, Eq)]
pub enum TableKind {
    NoColumn,
    HeadExpected,
    BadColumns,
    RepeatedColumn,
    ColumnExpected,
    TooManyColumns,
    TooManyCandidates,
    NameExpected,
    BadName,
    TooLongName,
    BadWithdrawn,
    UnequalRow,
    EmptyRow,
    BadRank,
    NoSuchCandidate,
    BadWeight,
    TooManyBallots,
    SkippedRank,
    EqualRank,
    Repeated,
}
