// The pieces of an input: what belongs to no token, and tokens.
ghost use Rattle.std.specs.Prelude.{◌≡◌, ◌+◌, ◌-◌, ◌*◌, ◌≤◌, ◌<◌, length, drop};
ghost use Rattle.std.specs.List.{prefix_len, take_while};
ghost use Rattle.std.specs.Char.{is_ascii_digit, is_ascii_lowercase};
ghost use Rattle.input_text.specs.Scan.{number, is_separator, is_in_line, is_in_string, may_follow, number_piece, minus_piece, string_piece, word_piece, piece};
ghost use Rattle.input_text.specs.Pieces.{seen, IsWithin, HoldsToken};

use crate::What;
use crate::short_number::{is_separator, may_end};

#[derive(Clone, Copy)]
pub(crate) enum Piece {
    Gap(usize),
    Lexeme(What, usize),
    Wrong(usize),
    Unclosed(usize),
}

// The number that the digits at the front say, and how many they are.
fn front_number(bytes: &[u8]) -> (u32, usize)
    ensures number { result.0 ≡ number (take_while is_ascii_digit bytes.now) }
    ensures len { result.1 ≡ prefix_len is_ascii_digit bytes.now }
    ensures within { result.1 ≤ length bytes.now }
{
    let mut value = 0u32;
    for (n, digit) in bytes.iter().enumerate() {
        if !digit.is_ascii_digit() {
            return (value, n);
        }
        value = value
            .saturating_mul(10)
            .saturating_add((*digit - b'0') as u32);
    }
    (value, bytes.len())
}

#[tactic(auto, using(crate::proofs::Runs::run_lengths))]
fn letters_len(bytes: &[u8]) -> usize
    ensures is { result ≡ prefix_len is_ascii_lowercase bytes.now }
    ensures within { result ≤ length bytes.now }
{
    bytes.iter().take_while(|b| b.is_ascii_lowercase()).count()
}

#[tactic(auto, using(crate::proofs::Runs::run_lengths))]
fn line_len(bytes: &[u8]) -> usize
    ensures is { result ≡ prefix_len is_in_line bytes.now }
    ensures within { result ≤ length bytes.now }
{
    bytes
        .iter()
        .take_while(|b| !(**b == b'\n' || **b == b'\r'))
        .count()
}

#[tactic(auto, using(crate::proofs::Runs::run_lengths))]
fn string_len(bytes: &[u8]) -> usize
    ensures is { result ≡ prefix_len is_in_string bytes.now }
    ensures within { result ≤ length bytes.now }
{
    bytes
        .iter()
        .take_while(|b| **b >= 32 && !(**b == b'"'))
        .count()
}

fn may_follow(bytes: &[u8]) -> bool
    ensures { result ≡ may_follow bytes.now }
{
    match bytes {
        [] => true,
        [b, ..] => may_end(*b),
    }
}

// A longest run of digits.
#[tactic(auto, using(crate::proofs::Runs::run_passes), unfolding(crate::specs::Scan::number_piece))]
fn number_piece(bytes: &[u8]) -> Piece
    requires { 0 < prefix_len is_ascii_digit bytes.now }
    ensures is { seen bytes.now result ≡ number_piece bytes.now }
    ensures within { IsWithin (length bytes.now) result }
    ensures text { HoldsToken bytes.now result }
{
    let (value, n) = front_number(bytes);
    if may_follow(&bytes[n..]) {
        Piece::Lexeme(What::Number(value), n)
    } else {
        Piece::Wrong(n)
    }
}

// A '-', and digits right after it. The bytes begin with the '-'.
#[tactic(auto, using(crate::proofs::Runs::run_passes), unfolding(crate::specs::Scan::minus_piece))]
fn minus_piece(bytes: &[u8]) -> Piece
    requires { 0 < length bytes.now }
    ensures is { seen bytes.now result ≡ minus_piece (drop 1 bytes.now) }
    ensures within { IsWithin (length bytes.now) result }
    ensures text { HoldsToken bytes.now result }
{
    let behind = &bytes[1..];
    let (value, n) = front_number(behind);
    if n == 0 {
        return Piece::Wrong(0);
    }
    if may_follow(&behind[n..]) {
        Piece::Lexeme(What::Minus(value), n + 1)
    } else {
        Piece::Wrong(n + 1)
    }
}

// A string. The bytes begin with its quote.
#[tactic(auto, using(crate::proofs::Runs::run_passes), unfolding(crate::specs::Scan::string_piece))]
fn string_piece(bytes: &[u8]) -> Piece
    requires { 0 < length bytes.now }
    ensures is { seen bytes.now result ≡ string_piece (drop 1 bytes.now) }
    ensures within { IsWithin (length bytes.now) result }
    ensures text { HoldsToken bytes.now result }
{
    let behind = &bytes[1..];
    let n = string_len(behind);
    match &behind[n..] {
        [] => Piece::Unclosed(n + 1),
        [b'"', rest @ ..] => {
            if may_follow(rest) {
                Piece::Lexeme(What::Text, n + 2)
            } else {
                Piece::Wrong(n + 2)
            }
        }
        _ => Piece::Wrong(n + 1),
    }
}

// A longest run of letters.
#[tactic(auto, using(crate::proofs::Runs::run_passes), unfolding(crate::specs::Scan::word_piece))]
fn word_piece(bytes: &[u8]) -> Piece
    requires { 0 < prefix_len is_ascii_lowercase bytes.now }
    ensures is { seen bytes.now result ≡ word_piece bytes.now }
    ensures within { IsWithin (length bytes.now) result }
    ensures text { HoldsToken bytes.now result }
{
    let n = letters_len(bytes);
    if may_follow(&bytes[n..]) {
        Piece::Lexeme(What::Word, n)
    } else {
        Piece::Wrong(n)
    }
}

/// What is at the front.
#[tactic(auto, unfolding(crate::specs::Scan::piece))]
pub(crate) fn first_piece(bytes: &[u8], letters: bool) -> Piece
    requires { 0 < length bytes.now }
    ensures is { seen bytes.now result ≡ piece letters bytes.now }
    ensures within { IsWithin (length bytes.now) result }
    ensures text { HoldsToken bytes.now result }
{
    let b = bytes[0];
    if is_separator(b) {
        Piece::Gap(1)
    } else if b == b'#' {
        Piece::Gap(1 + line_len(&bytes[1..]))
    } else if b.is_ascii_digit() {
        number_piece(bytes)
    } else if b == b'-' {
        minus_piece(bytes)
    } else if b == b'"' {
        string_piece(bytes)
    } else if letters && b.is_ascii_lowercase() {
        word_piece(bytes)
    } else {
        Piece::Wrong(0)
    }
}
