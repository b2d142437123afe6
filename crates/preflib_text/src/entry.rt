// A line of metadata.
ghost use Rattle.std.specs.Prelude.{◌≡◌, ◌≤◌, length};
ghost use Rattle.std.specs.List.{position_or_len};
ghost use Rattle.preflib_text.specs.Metadata.{is_colon, key_of, entry_of};
ghost use Rattle.preflib_text.specs.Reading.{kept_key};

use crate::blanks::{behind_blanks, trimmed};
use crate::numeral::number;

/// What a line of metadata is about.
#[derive(Clone, Copy)]
pub(crate) enum Key {
    /// The number of candidates.
    Alternatives,
    Voters,
    Title,
    /// The name of the candidate with this number, if it is one.
    Name(Option<u32>),
    /// Whatever is not used.
    Other,
}

/// A line of metadata: what it is about, what it says of it, and the place of this in the line.
#[derive(Drop)]
pub(crate) struct Entry<'a> {
    pub key: Key,
    pub value: &'a [u8],
    pub at: usize,
}

impl<'a> Entry<'a> {
    /// What a line says that begins with `#`.
    pub fn of(bytes: &'a [u8]) -> Entry<'a>
        requires { 1 ≤ length bytes.now }
        ensures key { result.key ≡ kept_key (entry_of bytes.now).key }
        ensures value { result.value.now ≡ (entry_of bytes.now).value }
        ensures at { result.at ≡ (entry_of bytes.now).at }
        ensures inside { result.at ≤ length bytes.now }
    {
        let text = &bytes[1..];
        let colon = colon_or_end(text);
        if colon == text.len() {
            return Entry {
                key: Key::Other,
                value: &[],
                at: bytes.len(),
            };
        }
        let value = behind_blanks(&text[colon + 1..]);
        Entry {
            key: key_of(trimmed(&text[..colon])),
            value: trimmed(&text[colon + 1..]),
            at: bytes.len() - value.len(),
        }
    }
}

fn colon_or_end(bytes: &[u8]) -> usize
    ensures stop { result ≡ position_or_len is_colon bytes.now }
    ensures inside { result ≤ length bytes.now }
{
    let mut at = 0;
    while at < bytes.len() && bytes[at] != b':' {
        at += 1;
    }
    at
}

fn key_of(text: &[u8]) -> Key
    ensures { result ≡ kept_key (key_of text.now) }
{
    if text == b"NUMBER ALTERNATIVES".as_slice() {
        Key::Alternatives
    } else if text == b"NUMBER VOTERS".as_slice() {
        Key::Voters
    } else if text == b"TITLE".as_slice() {
        Key::Title
    } else if text.starts_with(b"ALTERNATIVE NAME ") {
        Key::Name(number(&text[17..]))
    } else {
        Key::Other
    }
}
