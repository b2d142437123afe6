// The lines of a text.
ghost use Rattle.std.specs.Prelude.{◌≡◌, ◌+◌, ◌<◌, ◌≤◌, ◌==◌, ◌∷◌, [], length, slice_get};
ghost use Rattle.std.specs.List.{position_or_len};
ghost use Rattle.preflib_text.specs.Heading.{TakesMetadata};
ghost use Rattle.preflib_text.specs.Lines.{lines, mark_len, without_return};
ghost use Rattle.preflib_text.specs.Reading.{lines_from, Takes, end_of};

use crate::line::Line;
use std::marker::Model;

/// The lines of a text that are still to come, one after another.
#[derive(Drop)]
pub(crate) struct Lines<'a> {
    bytes: &'a [u8],
    row: usize,
    at: usize,
}

impl<'a> Model for Lines<'a> {
    ghost use Rattle.std.specs.Prelude.{◌≤◌, ◌+◌, length};
    ghost use Rattle.preflib_text.specs.Reading.{Coming, lines_from};

    ghost Value = { Coming };

    ghost view = { λ l. record { bytes = l.bytes.now; row = l.row; rest = lines_from l.bytes.now l.row l.at } };

    ghost invariant = { λ l. (l.at ≤ length l.bytes.now) × (l.row ≤ l.at + 1) };
}

impl<'a> Lines<'a> {
    /// The lines after a byte order mark.
    pub fn new(bytes: &'a [u8]) -> Lines<'a>
        ensures { result ≡ record { bytes = bytes.entry.now; row = 1; rest = lines bytes.entry.now } }
    {
        Lines {
            bytes,
            row: 1,
            at: mark_len(bytes),
        }
    }

    /// The next line, which stays the next one.
    pub fn peek(&self) -> Option<Line<'a>>
        ensures { result ≡ slice_get self.now.rest 0 }
    {
        if self.at == self.bytes.len() {
            return None;
        }
        let (line, _) = line_from(self.bytes, self.row, self.at);
        Some(line)
    }

    /// The next line.
    pub fn next(&mut self) -> Option<Line<'a>>
        ensures { Takes self.old result self.new }
    {
        if self.at == self.bytes.len() {
            return None;
        }
        let (line, behind) = line_from(self.bytes, self.row, self.at);
        self.at = behind;
        self.row += 1;
        Some(line)
    }

    /// The next line, if it is one of metadata.
    pub fn next_metadata(&mut self) -> Option<Line<'a>>
        ensures { TakesMetadata self.old result self.new }
    {
        match self.peek() {
            Some(line) if line.is_metadata() => self.next(),
            _ => None,
        }
    }

    /// Where the text ends, if no line is to come: at its length, in the row after the last line.
    pub fn end(&self) -> Line<'a>
        ensures { result ≡ end_of self.now }
    {
        Line {
            row: self.row,
            at: self.bytes.len(),
            bytes: &[],
        }
    }
}

// The length of a byte order mark at the front.
fn mark_len(bytes: &[u8]) -> usize
    ensures length { result ≡ mark_len bytes.now }
    ensures inside { result ≤ length bytes.now }
{
    if bytes.starts_with(&[0xEF, 0xBB, 0xBF]) {
        3
    } else {
        0
    }
}

// The line at a place before the end of a text, and the place after its line end.
fn line_from<'a>(bytes: &'a [u8], row: usize, at: usize) -> (Line<'a>, usize)
    requires { at < length bytes.now }
    ensures line { lines_from bytes.now row at ≡ result.0 ∷ lines_from bytes.now (row + 1) result.1 }
    ensures after { at < result.1 }
    ensures inside { result.1 ≤ length bytes.now }
{
    let rest = &bytes[at..];
    let stop = feed_or_end(rest);
    if stop == rest.len() {
        return (
            Line {
                row,
                at,
                bytes: rest,
            },
            bytes.len(),
        );
    }
    let line = without_return(&rest[..stop]);
    (
        Line {
            row,
            at,
            bytes: line,
        },
        at + stop + 1,
    )
}

fn feed_or_end(bytes: &[u8]) -> usize
    ensures stop { result ≡ position_or_len (λ b. b == 10) bytes.now }
    ensures inside { result ≤ length bytes.now }
{
    let mut at = 0;
    while at < bytes.len() && bytes[at] != b'\n' {
        at += 1;
    }
    at
}

fn without_return(bytes: &[u8]) -> &[u8]
    ensures line { result.now ≡ without_return bytes.now }
    ensures shorter { length result.now ≤ length bytes.now }
{
    if bytes.ends_with(b"\r") {
        &bytes[..bytes.len() - 1]
    } else {
        bytes
    }
}
