// Why an input is refused.
ghost use Rattle.std.specs.Prelude.{◌≡◌, ◌≤◌, length};
ghost use Rattle.input_text.specs.FaultWords.{kind_word};

/// Why an input is refused. docs/FORMATS.md says at which token each comes.
///
/// The first eleven are of ballot files. A roll that is read alone ends with its title, so `Trailing` is
/// never said of it, and without ballots `BallotsInRoll` is in the place of whatever may be wrong
/// with a ballot. `BadLots` is said of lots, and `TooLong` of a whole input. The others are of files of a
/// day alone.
#[derive(Clone, Copy, Debug, PartialEq, Eq)]
pub enum FaultKind {
    BadByte,
    BadNumber,
    BadHeader,
    BadWithdrawn,
    NoSuchCandidate,
    Repeated,
    TooManyBallots,
    NameExpected,
    TooLongName,
    Ended,
    Trailing,
    BallotsInRoll,
    BadLots,
    WordExpected,
    BadTeam,
    BadBatch,
    BadRevision,
    BatchTooLarge,
    TooManyFreezes,
    TooLong,
    BadPlaces,
    BadOmega,
}

impl FaultKind {
    /// The kind as the line of a refusal names it.
    pub fn word(self) -> &'static [u8]
        ensures word { result.now ≡ kind_word self }
        ensures short { length result.now ≤ 20 }
    {
        match self {
            FaultKind::BadByte => b"BadByte",
            FaultKind::BadNumber => b"BadNumber",
            FaultKind::BadHeader => b"BadHeader",
            FaultKind::BadWithdrawn => b"BadWithdrawn",
            FaultKind::NoSuchCandidate => b"NoSuchCandidate",
            FaultKind::Repeated => b"Repeated",
            FaultKind::TooManyBallots => b"TooManyBallots",
            FaultKind::NameExpected => b"NameExpected",
            FaultKind::TooLongName => b"TooLongName",
            FaultKind::Ended => b"Ended",
            FaultKind::Trailing => b"Trailing",
            FaultKind::BallotsInRoll => b"BallotsInRoll",
            FaultKind::BadLots => b"BadLots",
            FaultKind::WordExpected => b"WordExpected",
            FaultKind::BadTeam => b"BadTeam",
            FaultKind::BadBatch => b"BadBatch",
            FaultKind::BadRevision => b"BadRevision",
            FaultKind::BatchTooLarge => b"BatchTooLarge",
            FaultKind::TooManyFreezes => b"TooManyFreezes",
            FaultKind::TooLong => b"TooLong",
            FaultKind::BadPlaces => b"BadPlaces",
            FaultKind::BadOmega => b"BadOmega",
        }
    }
}
