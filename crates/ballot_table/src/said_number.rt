// Numbers that heads say.
ghost use Rattle.std.specs.Prelude.{◌≡◌, ◌<◌, ◌≤◌, ◌^◌, drop, length, take, not};
ghost use Rattle.std.specs.List.{list_any, prefix_len};
ghost use Rattle.std.specs.Option.{is_some};
ghost use Rattle.ballot_table.specs.Head.{rank_said};
ghost use Rattle.ballot_table.specs.Numerals.{numeral_of};
ghost use Rattle.ballot_table.specs.Texts.{is_digit, number, said_number};

use crate::numeral::{Numeral, is_digit, numeral_in};

/// Whether a text has digits, all of them together.
pub(crate) fn says_number(text: &[u8]) -> bool
    ensures { result ≡ is_some (said_number text.now) }
{
    match said_in(text, 0) {
        Numeral::Other => false,
        Numeral::Number(_) | Numeral::Greater => true,
    }
}

/// The rank that a head says among so many, or 0.
pub(crate) fn rank_said(most: u32, text: &[u8]) -> u32
    requires { most < 2 ^ 31 }
    ensures { result ≡ rank_said most text.now }
{
    match said_in(text, most) {
        Numeral::Number(rank) => rank,
        Numeral::Other | Numeral::Greater => 0,
    }
}

/// The number that the only digits of a text are, up to the greatest that is asked for.
fn said_in(text: &[u8], most: u32) -> Numeral
    requires { most < 2 ^ 31 }
    ensures { result ≡ numeral_of most (said_number text.now) }
{
    let rest = from_digits(text);
    let end = end_of_digits(rest);
    if has_digit(&rest[end..]) {
        Numeral::Other
    } else {
        numeral_in(&rest[..end], most)
    }
}

fn from_digits(text: &[u8]) -> &[u8]
    ensures { result.now ≡ drop (prefix_len (λ b. not (is_digit b)) text.now) text.now }
{
    let mut at = 0;
    while at < text.len() && !is_digit(text[at]) {
        at += 1;
    }
    &text[at..]
}

fn end_of_digits(text: &[u8]) -> usize
    ensures end { result ≡ prefix_len is_digit text.now }
    ensures inside { result ≤ length text.now }
{
    let mut at = 0;
    while at < text.len() && is_digit(text[at]) {
        at += 1;
    }
    at
}

fn has_digit(text: &[u8]) -> bool
    ensures { result ≡ list_any is_digit text.now }
{
    text.iter().any(|b| is_digit(*b))
}
