// Fields that are short numbers.
ghost use Rattle.std.specs.Prelude.{◌≡◌, ◌<◌, ◌≤◌, ◌↔◌, IsTrue};
ghost use Rattle.table_text.specs.Short.{AreDigits, IsDigit, StandsApart, is_first, number_or_none, short_number};

use crate::mark::QUOTE;

/// What a [`Cell`] has in place of the number of a field that is none, or a longer one, or one that begins with a 0.
pub const NO_NUMBER: u32 = 100;

/// The number of a field, from the field's bytes.
pub(crate) fn number_of(bytes: &[u8]) -> u32
    ensures { result ≡ number_or_none (short_number bytes.now) }
{
    match bytes {
        [] => 0,
        [a] if is_first(*a) => u32::from(*a - b'0'),
        [a, b] if is_first(*a) && is_digit(*b) => u32::from(*a - b'0') * 10 + u32::from(*b - b'0'),
        _ => NO_NUMBER,
    }
}

/// How many digits the short number has with which two bytes begin, and that number. Its first digit is told less one.
#[inline(always)]
pub(crate) fn front(a: u8, b: u8) -> (usize, u32)
    ensures digits { AreDigits a b result }
    ensures few { result.0 ≤ 2 }
    ensures short { result.1 < NO_NUMBER }
{
    let tens = a.wrapping_sub(b'1');
    let ones = b.wrapping_sub(b'0');
    let first = u32::from(tens <= 8);
    let second = first * u32::from(ones <= 9);
    (
        (first + second) as usize,
        (u32::from(tens) + 1) * first + (u32::from(tens) * 9 + 9 + u32::from(ones)) * second,
    )
}

/// Neither a digit nor the quote.
pub(crate) fn stands_apart(separator: u8) -> bool
    ensures { IsTrue result ↔ StandsApart separator }
{
    separator != QUOTE && !is_digit(separator)
}

fn is_digit(b: u8) -> bool
    ensures { IsTrue result ↔ IsDigit b }
{
    b >= b'0' && b <= b'9'
}

fn is_first(b: u8) -> bool
    ensures { result ≡ is_first b }
{
    b >= b'1' && b <= b'9'
}
