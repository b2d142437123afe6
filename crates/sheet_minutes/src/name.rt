// A name in a table.
ghost use Rattle.std.specs.Prelude.{◌≡◌, drop, slice_index_or};
ghost use Rattle.std.specs.Str.{encode_utf8_all};
ghost use Rattle.piece_text.specs.Writing.{Writes};
ghost use Rattle.sheet_minutes.specs.Columns.{name_columns};

use crate::columns::NAME_COLUMNS;
use crate::plain::write_char;
use bstr::{ByteSlice, Chars};
use byte_edge::{Failed, Sink};

/// Writes the first columns of a name, with spaces after a shorter one.
pub(crate) fn write_name<K: Sink>(name: &[u8], sink: &mut K) -> Result<(), Failed>
    ensures { Writes K.written K.faults sink.old sink.new (encode_utf8_all (name_columns name.now)) result }
{
    let mut rest = name.chars();
    for _ in 0..NAME_COLUMNS {
        write_char(next_column(&mut rest), sink)?;
    }
    Ok(())
}

/// The next character, or a space after the last.
fn next_column(rest: &mut Chars<'_>) -> char
    ensures first { result ≡ slice_index_or rest.old 0 32 }
    ensures others { rest.new ≡ drop 1 rest.old }
{
    match rest.next() {
        Some(c) => c,
        None => ' ',
    }
}
