// The parts of a line that is an order.
ghost use Rattle.std.specs.Prelude.{◌≡◌, ◌≢◌, ◌+◌, ◌<◌, ◌≤◌, drop, length};
ghost use Rattle.preflib_text.specs.declared.part.Part.TheVariants as part;
ghost use Rattle.std.specs.List.{prefix_len};
ghost use Rattle.preflib_text.specs.Parts.{sign};
ghost use Rattle.preflib_text.specs.Reading.{kept, IsFirst, IsFresh};
ghost use Rattle.preflib_text.specs.Texts.{is_blank, is_digit};

use crate::blanks::is_blank;
use crate::numeral::{is_digit, value};

/// A part of a line that is an order. Numbers above the most ballots are all the next one.
#[derive(Clone, Copy)]
pub(crate) enum Part {
    Number(u32),
    Colon,
    Comma,
    Open,
    Close,
    /// The `#` of metadata, at the front of a line.
    Meta,
    /// A byte that begins no part.
    Wrong,
    /// The line's end.
    End,
}

/// A part, the place of its first byte in the line, and the place after it.
#[derive(Clone, Copy)]
pub(crate) struct Found {
    pub part: Part,
    pub at: usize,
    pub stop: usize,
}

/// The first part from a place on, over which no number goes.
pub(crate) fn part_from(bytes: &[u8], from: usize) -> Found
    requires inside { from ≤ length bytes.now }
    requires fresh { IsFresh bytes.now from }
    ensures first { IsFirst bytes.now from result }
    ensures fresh { IsFresh bytes.now result.stop }
    ensures ordered { result.at ≤ result.stop }
    ensures further { result.part ≢ part.End → from < result.stop }
    ensures inside { result.stop ≤ length bytes.now }
{
    let at = behind_blanks(bytes, from);
    if at == bytes.len() {
        return Found {
            part: Part::End,
            at,
            stop: at,
        };
    }
    if is_digit(bytes[at]) {
        let stop = behind_digits(bytes, at);
        return Found {
            part: Part::Number(value(&bytes[at..stop])),
            at,
            stop,
        };
    }
    Found {
        part: sign(at, bytes[at]),
        at,
        stop: at + 1,
    }
}

fn behind_blanks(bytes: &[u8], from: usize) -> usize
    requires { from ≤ length bytes.now }
    ensures behind { result ≡ from + prefix_len is_blank (drop from bytes.now) }
    ensures inside { result ≤ length bytes.now }
{
    let mut at = from;
    while at < bytes.len() && is_blank(bytes[at]) {
        at += 1;
    }
    at
}

fn behind_digits(bytes: &[u8], from: usize) -> usize
    requires { from ≤ length bytes.now }
    ensures behind { result ≡ from + prefix_len is_digit (drop from bytes.now) }
    ensures inside { result ≤ length bytes.now }
{
    let mut at = from;
    while at < bytes.len() && is_digit(bytes[at]) {
        at += 1;
    }
    at
}

fn sign(at: usize, b: u8) -> Part
    ensures { result ≡ kept (sign at b) }
{
    match b {
        b':' => Part::Colon,
        b',' => Part::Comma,
        b'{' => Part::Open,
        b'}' => Part::Close,
        b'#' if at == 0 => Part::Meta,
        _ => Part::Wrong,
    }
}
