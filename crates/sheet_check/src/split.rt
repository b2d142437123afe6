// Where the sheet ends and the ballot file begins.
ghost use Rattle.std.specs.Prelude.{◌≡◌, ◌<◌, ◌++◌, ◌∷◌, [], ◌↔◌, IsTrue, MatchBool, MatchOption, length, take, codes};
ghost use Rattle.sheet_check.specs.Input.{HasEndAt, HasNoEnd, IsSplit};

use crate::comparing::is_same;

/// The bytes up to and including the first line `end`, and those after it; none where no line is `end`.
#[tactic(auto, using(crate::proofs::Ends::end_fits, crate::proofs::Ends::nowhere, crate::proofs::Ends::split_at_end))]
pub(crate) fn split(input: &[u8]) -> Option<(&[u8], &[u8])>
    ensures { MatchOption result (HasNoEnd input.now) (λ parts. IsSplit input.now parts.0.now parts.1.now) }
{
    for at in 0..input.len() {
        if has_end_at(input, at) {
            return Some((&input[..at + 4], &input[at + 4..]));
        }
    }
    None
}

/// Whether a line `end`, with its line feed, is at this place of an input.
pub fn has_end_at(input: &[u8], at: usize) -> bool
    requires { at < length input.now }
    ensures { MatchBool result (HasEndAt input.now at) (¬ (HasEndAt input.now at)) }
{
    if at > 0 && input[at - 1] != b'\n' {
        return false;
    }
    begins_with_end(&input[at..])
}

/// Whether the next line of a text is `end`.
fn begins_with_end(text: &[u8]) -> bool
    ensures { IsTrue result ↔ (take 4 text.now ≡ codes "end" ++ 10 ∷ []) }
{
    text.len() >= 4 && is_same(&text[..4], b"end\n")
}
