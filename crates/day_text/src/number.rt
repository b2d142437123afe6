// Numbers within a line: what is read is written again and compared.
ghost use Rattle.std.specs.Prelude.{◌≡◌, ◌≢◌, ◌<◌, ◌≤◌, ◌^◌, ◌++◌, ◌∷◌, ℕ, List, Some, decimal, IfSome, MatchOption};
ghost use Rattle.sheet_reader.specs.Numeral.{IsNumeralOf};
ghost use Rattle.day_text.specs.Parts.{IsUpTo, numbered_text};

use crate::cut::{cut, is_same, strip};
use itoa::Buffer;
use std::str;

/// The number that digits write. For another text any answer will do.
fn guess(text: &[u8]) -> Option<u64>
    ensures { (n : ℕ) → IsNumeralOf text.now n → result ≡ Some n }
{
    let Ok(text) = str::from_utf8(text) else {
        return None;
    };
    match text.parse::<u64>() {
        Ok(n) => Some(n),
        Err(_) => None,
    }
}

/// The number from 1 to the greatest that a text without leading zeros writes.
pub(crate) fn read_number(text: &[u8], most: u32) -> Option<u32>
    ensures sound { IfSome result (λ n. IsUpTo most n × (text.now ≡ decimal n)) }
    ensures whole { (n : ℕ) → IsUpTo most n → text.now ≡ decimal n → result ≡ Some n }
{
    let Some(n) = guess(text) else {
        return None;
    };
    if n < 1 {
        return None;
    }
    if n > most as u64 {
        return None;
    }
    let mut buffer = Buffer::new();
    if is_same(buffer.format(n).as_bytes(), text) {
        Some(n as u32)
    } else {
        None
    }
}

/// The number from 1 to the greatest after a word, which brings its space, and what is after the space
/// that follows.
pub(crate) fn numbered<'a>(text: &'a [u8], word: &[u8], most: u32) -> Option<(u32, &'a [u8])>
    ensures { MatchOption result
        ((n : ℕ) (rest : List ℕ) → IsUpTo most n → text.now ≢ numbered_text word.now n rest)
        (λ read. IsUpTo most read.0 × (text.now ≡ numbered_text word.now read.0 read.1.now)) }
{
    let Some(behind) = strip(text, word) else {
        return None;
    };
    let Some((digits, rest)) = cut(behind, b' ') else {
        return None;
    };
    match read_number(digits, most) {
        Some(n) => Some((n, rest)),
        None => None,
    }
}

/// The number from 1 to the greatest after a word, which brings its space, at the end of a text.
pub(crate) fn last_number(text: &[u8], word: &[u8], most: u32) -> Option<u32>
    ensures { MatchOption result
        ((n : ℕ) → IsUpTo most n → text.now ≢ word.now ++ decimal n)
        (λ n. IsUpTo most n × (text.now ≡ word.now ++ decimal n)) }
{
    let Some(digits) = strip(text, word) else {
        return None;
    };
    match read_number(digits, most) {
        Some(n) => Some(n),
        None => None,
    }
}

/// What is after this number and a space.
pub(crate) fn behind_number(text: &[u8], n: u64) -> Option<&[u8]>
    ensures { MatchOption result ((rest : List ℕ) → text.now ≢ decimal n ++ 32 ∷ rest)
        (λ rest. text.now ≡ decimal n ++ 32 ∷ rest.now) }
{
    let mut buffer = Buffer::new();
    let Some(behind) = strip(text, buffer.format(n).as_bytes()) else {
        return None;
    };
    match strip(behind, b" ") {
        Some(rest) => Some(rest),
        None => None,
    }
}
