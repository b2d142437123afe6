// The bytes of lines of ballots.
ghost use Rattle.std.specs.Prelude.{◌≡◌, ◌≤◌, ◌+◌, ◌*◌, ◌++◌, [], length, take};
ghost use Rattle.std.specs.List.{flat_map};
ghost use Rattle.piece_text.specs.Writing.{Writes};
ghost use Rattle.blt_writer.specs.Page.{HandsOver};
ghost use Rattle.blt_writer.specs.ShortTexts.{AreTexts};
ghost use Rattle.blt_writer.specs.Text.{ballot_text, number_then};

use crate::short_numbers::ShortNumbers;
use byte_edge::{Failed, Sink};
use itoa::Buffer;
use piece_text::write_bytes;
use std::marker::Model;

// A line of 255 candidates takes at most 21 bytes for its count, four for each candidate and two for its end.
const LINE: usize = 1100;

const ROOM: usize = 16384;

/// The text of lines of ballots on their way to a sink. It takes no memory of its own.
#[derive(Drop)]
pub(crate) struct Page {
    numbers: ShortNumbers,
    bytes: [u8; ROOM],
    len: usize,
}

impl Model for Page {
    ghost use Rattle.std.specs.Prelude.{◌≤◌, List, ℕ, take};
    ghost use Rattle.blt_writer.specs.ShortTexts.{AreTexts};

    ghost Value = { List ℕ };

    ghost view = { λ p. take p.len p.bytes };

    ghost invariant = { λ p. AreTexts p.numbers.texts p.numbers.lens × (p.len ≤ 16384) };
}

impl Page {
    pub fn new() -> Page
        ensures { result ≡ [] }
    {
        Page {
            numbers: ShortNumbers::new(),
            bytes: [0; ROOM],
            len: 0,
        }
    }

    /// Puts the line of so many ballots with this ranking after what is there.
    pub fn add(&mut self, count: u64, ranking: &[u8])
        requires short { length ranking.now ≤ 255 }
        requires room { length self.old + 1100 ≤ 16384 }
        ensures { self.new ≡ self.old ++ ballot_text (record { count = count; ranking = ranking.now }) }
    {
        let behind_count = put_count(&self.numbers, count, &mut self.bytes, self.len);
        let behind_ranks = put_ranks(&self.numbers, ranking, &mut self.bytes, behind_count);
        self.len = put_bytes(b"0\n", &mut self.bytes, behind_ranks);
    }

    /// Makes room for a line: where there is too little, what is here is written.
    #[inline]
    pub fn make_room<K: Sink>(&mut self, sink: &mut K) -> Result<(), Failed>
        ensures handed { HandsOver K.written K.faults sink.old sink.new self.old self.new result }
        ensures room { length self.new + 1100 ≤ 16384 }
    {
        if self.len + LINE <= ROOM {
            return Ok(());
        }
        self.flush(sink)
    }

    /// Writes what is here.
    pub fn flush<K: Sink>(&mut self, sink: &mut K) -> Result<(), Failed>
        ensures written { Writes K.written K.faults sink.old sink.new self.old result }
        ensures empty { self.new ≡ [] }
    {
        let len = self.len;
        self.len = 0;
        write_bytes(&self.bytes[..len], sink)
    }
}

/// Writes a count and a space at a place, and gives the place after them.
fn put_count(numbers: &ShortNumbers, count: u64, bytes: &mut [u8], at: usize) -> usize
    requires sound { AreTexts numbers.now.texts numbers.now.lens }
    requires room { at + 21 ≤ length bytes.old }
    ensures text { take result bytes.new ≡ take at bytes.old ++ number_then 32 count }
    ensures short { result ≤ at + 21 }
    ensures same_length { length bytes.new ≡ length bytes.old }
{
    if count < 256 {
        return numbers.put(count as u8, bytes, at);
    }
    let mut buffer = Buffer::new();
    let behind = put_bytes(buffer.format(count).as_bytes(), bytes, at);
    put_bytes(b" ", bytes, behind)
}

/// Writes candidates at a place, a space after each, and gives the place after them.
fn put_ranks(numbers: &ShortNumbers, ranking: &[u8], bytes: &mut [u8], at: usize) -> usize
    requires sound { AreTexts numbers.now.texts numbers.now.lens }
    requires room { at + 4 * length ranking.now ≤ length bytes.old }
    ensures text { take result bytes.new ≡ take at bytes.old ++ flat_map (number_then 32) ranking.now }
    ensures short { result ≤ at + 4 * length ranking.now }
    ensures same_length { length bytes.new ≡ length bytes.old }
{
    let mut behind = at;
    for candidate in ranking {
        behind = numbers.put(*candidate, bytes, behind);
    }
    behind
}

/// Writes a text at a place, and gives the place after it.
fn put_bytes(text: &[u8], bytes: &mut [u8], at: usize) -> usize
    requires room { at + length text.now ≤ length bytes.old }
    ensures text { take result bytes.new ≡ take at bytes.old ++ text.now }
    ensures place { result ≡ at + length text.now }
    ensures same_length { length bytes.new ≡ length bytes.old }
{
    let behind = at + text.len();
    bytes[at..behind].copy_from_slice(text);
    behind
}
