// A line of text under way.
ghost use Rattle.std.specs.Prelude.{◌≡◌, ◌+◌, ◌^◌, ◌<◌, ◌≤◌, [], ◌++◌, length, drop, decimal};
ghost use Rattle.fixed_place.specs.Text.{text_of, last_digits};

use fixed_place::{Amount, Keep, scale_of};
use itoa::Buffer;
use std::marker::Model;

// The bytes that a line has room for.
const ROOM: usize = 1400;

/// A line of text under way, of at most 1,400 bytes.
#[derive(Drop)]
pub struct Line {
    bytes: [u8; ROOM],
    len: usize,
}

impl Model for Line {
    ghost use Rattle.std.specs.Prelude.{◌≤◌, List, ℕ, take};

    ghost Value = { List ℕ };

    ghost view = { λ line. take line.len line.bytes };

    ghost invariant = { λ line. line.len ≤ 1400 };
}

impl Line {
    pub fn new() -> Self
        ensures { result ≡ [] }
    {
        Line {
            bytes: [0; ROOM],
            len: 0,
        }
    }

    /// Makes the line empty, for the next text.
    pub fn clear(&mut self)
        ensures { self.new ≡ [] }
    {
        self.len = 0;
    }

    pub fn bytes(&self) -> &[u8]
        ensures value { result.now ≡ self.now }
        ensures bound { length result.now ≤ ROOM }
    {
        &self.bytes[..self.len]
    }

    pub fn push_bytes(&mut self, bytes: &[u8])
        requires { length self.old + length bytes.now ≤ ROOM }
        ensures { self.new ≡ self.old ++ bytes.now }
    {
        let end = self.len + bytes.len();
        self.bytes[self.len..end].copy_from_slice(bytes);
        self.len = end;
    }

    /// Appends a whole number without leading zeros.
    pub fn push_count(&mut self, n: u64)
        requires { length self.old + length (decimal n) ≤ ROOM }
        ensures { self.new ≡ self.old ++ decimal n }
    {
        let mut buffer = Buffer::new();
        self.push_bytes(buffer.format(n).as_bytes());
    }

    /// Appends an amount of votes: the whole part, a point and `P` digits.
    pub fn push_amount<const P: usize>(&mut self, a: Amount<P>)
        requires { length self.old + length (text_of P a) ≤ ROOM }
        ensures { self.new ≡ self.old ++ text_of P a.entry }
    {
        self.push_units::<P>(a.units());
    }

    /// Appends a keep value: the whole part, a point and `P` digits.
    pub fn push_keep<const P: usize>(&mut self, k: Keep<P>)
        requires { length self.old + length (text_of P k) ≤ ROOM }
        ensures { self.new ≡ self.old ++ text_of P k.entry }
    {
        self.push_units::<P>(k.units());
    }

    #[tactic(auto, unfolding(fixed_place::specs::Text::text_of))]
    fn push_units<const P: usize>(&mut self, units: u64)
        requires places { P ≤ 9 }
        requires room { length self.old + length (text_of P units) ≤ ROOM }
        ensures { self.new ≡ self.old ++ text_of P units }
    {
        let one = scale_of::<P>();
        self.push_count(units / one);
        self.push_bytes(b".");
        self.push_last_digits::<P>(units % one);
    }

    // A one before the digits keeps their leading zeros, and is left out.
    fn push_last_digits<const P: usize>(&mut self, n: u64)
        requires places { P ≤ 9 }
        requires below { n < 10 ^ P }
        requires room { length self.old + P ≤ ROOM }
        ensures { self.new ≡ self.old ++ last_digits P n }
    {
        let mut buffer = Buffer::new();
        let text = buffer.format(scale_of::<P>() + n).as_bytes();
        let digits = behind_first(text);
        self.push_bytes(digits);
    }
}

fn behind_first(text: &[u8]) -> &[u8]
    requires { 0 < length text.now }
    ensures { result.now ≡ drop 1 text.now }
{
    &text[1..]
}
