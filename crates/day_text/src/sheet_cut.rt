// Where a sheet in a text ends.
ghost use Rattle.std.specs.Prelude.{◌≡◌, ◌≢◌, ◌++◌, ℕ, List, decimal, codes, MatchOption};
ghost use Rattle.sheet_text.specs.Lines.{ended};
ghost use Rattle.day_lines.specs.DayText.{sheet_line};
ghost use Rattle.day_text.specs.SheetParts.{IsSheetCut};

use crate::cut::{cut, is_same, strip};
use itoa::Buffer;

/// The text up to and including its first line `end`, and what is after it.
pub(crate) fn cut_sheet(text: &[u8]) -> Option<(&[u8], &[u8])>
    ensures { MatchOption result
        ((sheet : List ℕ) (rest : List ℕ) → ¬ (IsSheetCut text.now sheet rest))
        (λ parts. IsSheetCut text.now parts.0.now parts.1.now) }
{
    let mut rest = text;
    'lines: while let Some((line, behind)) = cut(rest, b'\n') {
        rest = behind;
        if is_same(line, b"end") {
            return Some(text.split_at(text.len() - rest.len()));
        }
    }
    None
}

/// What is after the line that names the freeze of a sheet.
pub(crate) fn behind_sheet_line(text: &[u8], freeze: u64) -> Option<&[u8]>
    ensures { MatchOption result
        ((rest : List ℕ) → text.now ≢ ended (sheet_line freeze) ++ rest)
        (λ rest. text.now ≡ ended (sheet_line freeze) ++ rest.now) }
{
    let mut buffer = Buffer::new();
    let Some(number) = strip(text, b"sheet ") else {
        return None;
    };
    let Some(end) = strip(number, buffer.format(freeze).as_bytes()) else {
        return None;
    };
    match strip(end, b"\n") {
        Some(rest) => Some(rest),
        None => None,
    }
}
