// The words of refusals.
ghost use Rattle.std.specs.Prelude.{◌≡◌, ◌≤◌, length};
ghost use Rattle.blt_import.specs.Faults.{pref_word, table_word, text_word};

use ballot_table::TableKind;
use preflib_text::PrefKind;
use table_text::TextKind;

/// The kind of a text that is no table, as the line of a refusal names it.
pub(crate) fn text_word(kind: TextKind) -> &'static [u8]
    ensures word { result.now ≡ text_word kind }
    ensures short { length result.now ≤ 20 }
{
    match kind {
        TextKind::BadByte => b"BadByte",
        TextKind::BadQuote => b"BadQuote",
        TextKind::EmptyLine => b"EmptyLine",
        TextKind::Ended => b"Ended",
        TextKind::UnclearSeparator => b"UnclearSeparator",
    }
}

/// The kind of a record's fault, or of the words', as the line of a refusal names it.
pub(crate) fn table_word(kind: TableKind) -> &'static [u8]
    ensures word { result.now ≡ table_word kind }
    ensures short { length result.now ≤ 20 }
{
    match kind {
        TableKind::NoColumn => b"NoColumn",
        TableKind::HeadExpected => b"HeadExpected",
        TableKind::BadColumns => b"BadColumns",
        TableKind::RepeatedColumn => b"RepeatedColumn",
        TableKind::ColumnExpected => b"ColumnExpected",
        TableKind::TooManyColumns => b"TooManyColumns",
        TableKind::TooManyCandidates => b"TooManyCandidates",
        TableKind::NameExpected => b"NameExpected",
        TableKind::BadName => b"BadName",
        TableKind::TooLongName => b"TooLongName",
        TableKind::BadWithdrawn => b"BadWithdrawn",
        TableKind::UnequalRow => b"UnequalRow",
        TableKind::EmptyRow => b"EmptyRow",
        TableKind::BadRank => b"BadRank",
        TableKind::NoSuchCandidate => b"NoSuchCandidate",
        TableKind::BadWeight => b"BadWeight",
        TableKind::TooManyBallots => b"TooManyBallots",
        TableKind::SkippedRank => b"SkippedRank",
        TableKind::EqualRank => b"EqualRank",
        TableKind::Repeated => b"Repeated",
    }
}

/// The kind of the fault of a text of PrefLib, as the line of a refusal names it.
pub(crate) fn pref_word(kind: PrefKind) -> &'static [u8]
    ensures word { result.now ≡ pref_word kind }
    ensures short { length result.now ≤ 20 }
{
    match kind {
        PrefKind::BadByte => b"BadByte",
        PrefKind::EmptyLine => b"EmptyLine",
        PrefKind::BadHeader => b"BadHeader",
        PrefKind::BadNumber => b"BadNumber",
        PrefKind::NameExpected => b"NameExpected",
        PrefKind::BadName => b"BadName",
        PrefKind::TooLongName => b"TooLongName",
        PrefKind::BadWithdrawn => b"BadWithdrawn",
        PrefKind::NoSuchCandidate => b"NoSuchCandidate",
        PrefKind::Repeated => b"Repeated",
        PrefKind::TooManyBallots => b"TooManyBallots",
        PrefKind::EqualRank => b"EqualRank",
        PrefKind::WrongTotal => b"WrongTotal",
    }
}
