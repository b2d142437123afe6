// Numbers in a line.
ghost use Rattle.std.specs.Prelude.{◌≡◌};
ghost use Rattle.std.specs.List.{list_all};
ghost use Rattle.std.specs.Option.{option_map};
ghost use Rattle.preflib_text.specs.Texts.{is_digit, value, number};
ghost use Rattle.preflib_text.specs.Reading.{capped};

use plain_ballots::MOST_BALLOTS;

/// The number that a text is, if it is one: those above the most ballots are all the next one.
pub(crate) fn number(text: &[u8]) -> Option<u32>
    ensures { result ≡ option_map capped (number text.now) }
{
    match text {
        [] => None,
        _ if are_digits(text) => Some(value(text)),
        _ => None,
    }
}

/// The number that digits write: those above the most ballots are all the next one.
pub(crate) fn value(digits: &[u8]) -> u32
    ensures { result ≡ capped (value digits.now) }
{
    let mut value = 0;
    for digit in digits {
        value = capped(value * 10 + digit.saturating_sub(b'0') as u64);
    }
    value as u32
}

fn capped(n: u64) -> u64
    ensures { result ≡ capped n }
{
    if n > MOST_BALLOTS as u64 {
        MOST_BALLOTS as u64 + 1
    } else {
        n
    }
}

fn are_digits(text: &[u8]) -> bool
    ensures { result ≡ list_all is_digit text.now }
{
    text.iter().all(|b| is_digit(*b))
}

pub(crate) fn is_digit(b: u8) -> bool
    ensures { result ≡ is_digit b }
{
    b >= b'0' && b <= b'9'
}
