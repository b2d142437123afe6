// Numbers in cells.
ghost use Rattle.std.specs.Prelude.{◌≡◌, ◌<◌, ◌^◌, Some};
ghost use Rattle.std.specs.List.{list_all};
ghost use Rattle.ballot_table.specs.Texts.{is_digit, are_digits, value, number};
ghost use Rattle.ballot_table.specs.Numerals.{numeral_of};

/// What a text is as a number: none, or one up to the greatest that is asked for, or a greater one.
#[derive(Clone, Copy)]
pub(crate) enum Numeral {
    Other,
    Number(u32),
    Greater,
}

/// The number that some digits are, if it is not greater than another.
pub(crate) fn numeral_in(text: &[u8], most: u32) -> Numeral
    requires { most < 2 ^ 31 }
    ensures { result ≡ numeral_of most (number text.now) }
{
    if are_digits(text) {
        value_up_to(text, most)
    } else {
        Numeral::Other
    }
}

fn value_up_to(digits: &[u8], most: u32) -> Numeral
    requires { most < 2 ^ 31 }
    ensures { result ≡ numeral_of most (Some (value digits.now)) }
{
    let mut value = 0u64;
    for digit in digits {
        value = value * 10 + digit.saturating_sub(b'0') as u64;
        if value > most as u64 {
            return Numeral::Greater;
        }
    }
    Numeral::Number(value as u32)
}

#[tactic(auto, using(crate::proofs::NumberLemmas::some_digits))]
pub(crate) fn are_digits(text: &[u8]) -> bool
    ensures { result ≡ are_digits text.now }
{
    match text {
        [] => false,
        _ => all_digits(text),
    }
}

fn all_digits(text: &[u8]) -> bool
    ensures { result ≡ list_all is_digit text.now }
{
    text.iter().all(|b| is_digit(*b))
}

pub(crate) fn is_digit(b: u8) -> bool
    ensures { result ≡ is_digit b }
{
    b >= b'0' && b <= b'9'
}
