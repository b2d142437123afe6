// Numbers within a line: what is read is written again and compared.
ghost use Rattle.std.specs.Prelude.{◌≡◌, ◌<◌, ◌≤◌, ◌^◌, ◌+◌, ◌*◌, ℕ, Some, decimal, IfSome};
ghost use Rattle.fixed_place.specs.Rounding.{most, scale};
ghost use Rattle.fixed_place.specs.Text.{text_of};
ghost use Rattle.sheet_reader.specs.Numeral.{IsNumeralOf, HasParts};

use crate::cut::is_same;
use fixed_place::{Amount, scale_of};
use itoa::Buffer;
use line_text::Line;
use std::str;

/// The number that digits write. For another text any answer will do.
fn guess(text: &[u8]) -> Option<u64>
    ensures { (n : ℕ) → IsNumeralOf text.now n → result ≡ Some n }
{
    let Ok(text) = str::from_utf8(text) else {
        return None;
    };
    match text.parse::<u64>() {
        Ok(n) => Some(n),
        Err(_) => None,
    }
}

/// The whole number that a text without leading zeros writes.
pub(crate) fn read_count(text: &[u8]) -> Option<u64>
    ensures sound { IfSome result (λ n. text.now ≡ decimal n) }
    ensures whole { (n : ℕ) → n < 2 ^ 64 → text.now ≡ decimal n → result ≡ Some n }
{
    let Some(n) = guess(text) else {
        return None;
    };
    let mut buffer = Buffer::new();
    if is_same(buffer.format(n).as_bytes(), text) {
        Some(n)
    } else {
        None
    }
}

/// The units of an amount that a text writes: the whole part, a point and `P` digits.
pub(crate) fn read_units<const P: usize>(line: &mut Line, text: &[u8]) -> Option<u64>
    requires places { (6 ≤ P) × (P ≤ 9) }
    ensures sound { IfSome result (λ u. (u ≤ most P) × (text.now ≡ text_of P u)) }
    ensures whole { (u : ℕ) → u ≤ most P → text.now ≡ text_of P u → result ≡ Some u }
{
    let Some(units) = guess_units::<P>(text) else {
        return None;
    };
    line.clear();
    line.push_amount(Amount::<P>::from_units(units));
    if is_same(line.bytes(), text) {
        Some(units)
    } else {
        None
    }
}

/// The units that the digits on both sides of the point write. For another text any answer will do.
fn guess_units<const P: usize>(text: &[u8]) -> Option<u64>
    requires places { P ≤ 9 }
    ensures bound { IfSome result (λ u. u ≤ most P) }
    ensures whole { (u : ℕ) → u ≤ most P → HasParts P u text.now → result ≡ Some u }
{
    if text.len() <= P {
        return None;
    }
    let point = text.len() - P - 1;
    let (Some(whole), Some(rest)) = (guess(&text[..point]), guess(&text[point + 1..])) else {
        return None;
    };
    join::<P>(whole, rest)
}

/// An amount of these votes and units, unless there are too many.
fn join<const P: usize>(whole: u64, rest: u64) -> Option<u64>
    requires places { P ≤ 9 }
    ensures bound { IfSome result (λ u. u ≤ most P) }
    ensures whole { (u : ℕ) → u ≤ most P → whole * scale P + rest ≡ u → result ≡ Some u }
{
    if whole > 1_000_000_000 {
        return None;
    }
    if rest > 1_000_000_000_000_000_000 {
        return None;
    }
    let one = scale_of::<P>();
    let units = whole * one + rest;
    if units > 1_000_000_000 * one {
        return None;
    }
    Some(units)
}
