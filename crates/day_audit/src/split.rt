// Where the text ends and the day file begins.
ghost use Rattle.std.specs.Prelude.{◌≡◌, ◌<◌, ◌↔◌, IsTrue, MatchBool, MatchOption, length, take, codes};
ghost use Rattle.sheet_check.specs.Input.{HasEndAt};
ghost use Rattle.day_audit.specs.Input.{GoesOn, HasNoLastEnd, IsDaySplit, IsLastEnd};

use blt_reader::{FaultKind, InputFault};
use sheet_check::has_end_at;

/// The bytes up to and including the first line `end` after which no further sheet begins, and those after
/// it; none where there is no such line.
#[tactic(auto, using(crate::proofs::Splits::nowhere, crate::proofs::Splits::split_at_end, crate::proofs::Splits::last_fits))]
pub fn text_and_file(input: &[u8]) -> Option<(&[u8], &[u8])>
    ensures { MatchOption result (HasNoLastEnd input.now) (λ parts. IsDaySplit input.now parts.0.now parts.1.now) }
{
    for at in 0..input.len() {
        if is_last_end(input, at) {
            return Some(input.split_at(at + 4));
        }
    }
    None
}

/// The fault of an input in which no text ends.
pub fn ended(len: usize) -> InputFault
    ensures { result ≡ record { kind = FaultKind.Ended; at = len } }
{
    InputFault {
        kind: FaultKind::Ended,
        at: len,
    }
}

/// Whether a line `end` is at this place, and no further sheet after it.
#[tactic(auto, using(crate::proofs::Splits::end_fits))]
fn is_last_end(input: &[u8], at: usize) -> bool
    requires { at < length input.now }
    ensures { MatchBool result (IsLastEnd input.now at) (¬ (IsLastEnd input.now at)) }
{
    has_end_at(input, at) && !goes_on(&input[at + 4..])
}

/// Whether a text begins with the line of a sheet.
fn goes_on(text: &[u8]) -> bool
    ensures { IsTrue result ↔ GoesOn text.now }
{
    text.len() >= 6 && is_same(&text[..6], b"sheet ")
}

fn is_same(text: &[u8], other: &[u8]) -> bool
    ensures { IsTrue result ↔ (text.now ≡ other.now) }
{
    text == other
}
