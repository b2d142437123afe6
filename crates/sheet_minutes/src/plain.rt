// A text as a terminal is given it.
ghost use Rattle.std.specs.Prelude.{◌≡◌, encode_utf8};
ghost use Rattle.piece_text.specs.Writing.{Writes};
ghost use Rattle.sheet_minutes.specs.Columns.{plain, tamed};

use bstr::ByteSlice;
use byte_edge::{Failed, Sink};
use piece_text::write_bytes;

/// Writes a text without control characters. The replacement sign stands for each, and for bytes that are
/// no UTF-8.
pub(crate) fn write_plain<K: Sink>(text: &[u8], sink: &mut K) -> Result<(), Failed>
    ensures { Writes K.written K.faults sink.old sink.new (plain text.now) result }
{
    let mut rest = text.chars();
    while let Some(c) = rest.next() {
        write_char(c, sink)?;
    }
    Ok(())
}

/// Writes a character, or the replacement sign for a control character.
pub(crate) fn write_char<K: Sink>(c: char, sink: &mut K) -> Result<(), Failed>
    ensures { Writes K.written K.faults sink.old sink.new (encode_utf8 (tamed c)) result }
{
    let mut room = [0; 4];
    write_bytes(tamed(c).encode_utf8(&mut room).as_bytes(), sink)
}

fn tamed(c: char) -> char
    ensures { result ≡ tamed c }
{
    if c.is_control() { '\u{FFFD}' } else { c }
}
