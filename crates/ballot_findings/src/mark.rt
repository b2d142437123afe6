// A place in a text, and how people say it.
ghost use Rattle.std.specs.Prelude.{◌≡◌, ◌<◌, ◌≤◌, ◌+◌, ◌-◌, ◌==◌, cond, if◌then◌else◌, length, slice_index};
ghost use Rattle.ballot_findings.specs.Places.{IsMark, IsMarkOf, column_at, ends_line, is_break, line_at};

/// A place in a text with its line and its column, both from 1.
#[derive(Clone, Copy)]
pub(crate) struct Mark {
    pub at: usize,
    pub line: u64,
    pub column: u64,
}

/// The front of a text.
pub(crate) fn start(text: &[u8]) -> Mark
    ensures is { IsMark text.now result }
    ensures front { result.at ≡ 0 }
{
    let _len = text.len();
    Mark {
        at: 0,
        line: 1,
        column: 1,
    }
}

/// The line and the column of a place. Going on from a mark before it, this takes as long as the bytes between.
pub(crate) fn mark_of(text: &[u8], from: Mark, place: usize) -> Mark
    requires { IsMark text.now from }
    ensures { IsMarkOf text.now place result }
{
    let stop = within(text, place);
    let mut mark = not_after(text, from, stop);
    while mark.at < stop {
        mark = one_on(text, mark);
    }
    mark
}

/// The place, or the end of the text if it is after that.
fn within(text: &[u8], place: usize) -> usize
    ensures inside { result ≤ length text.now }
    ensures line { line_at text.now result ≡ line_at text.now place }
    ensures column { column_at text.now result ≡ column_at text.now place }
{
    if place < text.len() {
        place
    } else {
        text.len()
    }
}

/// The mark, or the start of the text if it is after a place.
fn not_after(text: &[u8], mark: Mark, place: usize) -> Mark
    requires { IsMark text.now mark }
    ensures is { IsMark text.now result }
    ensures before { result.at ≤ place }
{
    if mark.at <= place { mark } else { start(text) }
}

/// One byte on.
fn one_on(text: &[u8], mark: Mark) -> Mark
    requires is { IsMark text.now mark }
    requires inside { mark.at < length text.now }
    ensures is { IsMark text.now result }
    ensures on { result.at ≡ mark.at + 1 }
{
    Mark {
        at: mark.at + 1,
        line: mark.line + lines_ended(text, mark.at),
        column: column_after(text[mark.at], mark.column),
    }
}

/// How many lines end at this byte: one, or none.
fn lines_ended(text: &[u8], p: usize) -> u64
    requires { p < length text.now }
    ensures value { result ≡ cond (ends_line text.now p) 1 0 }
    ensures few { result ≤ 1 }
{
    if ends_line(text, p) { 1 } else { 0 }
}

/// The column after this byte, which is in this one.
fn column_after(byte: u8, column: u64) -> u64
    requires { column < 0xFFFF_FFFF_FFFF_FFFF }
    ensures value { result ≡ if is_break byte then 1 else column + 1 }
    ensures few { result ≤ column + 1 }
{
    if is_break(byte) { 1 } else { column + 1 }
}

fn is_break(byte: u8) -> bool
    ensures { result ≡ is_break byte }
{
    byte == b'\n' || byte == b'\r'
}

/// Whether a line ends at this byte.
fn ends_line(text: &[u8], p: usize) -> bool
    requires { p < length text.now }
    ensures { result ≡ ends_line text.now p }
{
    text[p] == b'\r' || (text[p] == b'\n' && !is_after_return(text, p))
}

/// Whether a carriage return is right before this place.
fn is_after_return(text: &[u8], p: usize) -> bool
    requires inside { p < length text.now }
    requires other { slice_index text.now p ≡ 10 }
    ensures { result ≡ slice_index text.now (p - 1) == 13 }
{
    p > 0 && text[p - 1] == b'\r'
}
