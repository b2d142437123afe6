// What is at the left of a line.
ghost use Rattle.std.specs.Prelude.{◌+◌, ◌++◌, ◌∷◌, ◌<◌, decimal, length, slice_index_or, []};
ghost use Rattle.std.specs.Str.{encode_utf8_all};
ghost use Rattle.piece_text.specs.Writing.{Writes};
ghost use Rattle.sheet_reader.specs.Form.{IsPrintable};
ghost use Rattle.sheet_minutes.specs.Columns.{at_right, name_columns};
ghost use Rattle.sheet_minutes.specs.Table.{IsAbout, label};

use crate::columns::NUMBER_COLUMNS;
use crate::entry::Entry;
use crate::name::write_name;
use crate::piece::Piece;
use crate::pieces::write_piece;
use byte_edge::{Failed, Sink};
use piece_text::write_bytes;
use sheet_reader::SheetValuesAt;

pub(crate) fn write_label<const P: usize, K: Sink>(
    values: &SheetValuesAt<P>,
    entry: Entry,
    sink: &mut K,
) -> Result<(), Failed>
    requires printable { IsPrintable P values.now }
    requires about { IsAbout (length values.now.names) entry }
    ensures { Writes K.written K.faults sink.old sink.new (label values.now entry) result }
{
    match entry {
        Entry::Round => write_bytes(b"Round               ", sink),
        Entry::Quota => write_bytes(b"Quota               ", sink),
        Entry::LeftOver => write_bytes(b"On no candidate     ", sink),
        Entry::Candidate(p) => write_numbered(p as u64 + 1, values.names.get(p).bytes(), sink),
    }
}

/// Writes a candidate's number and name.
fn write_numbered<K: Sink>(number: u64, name: &[u8], sink: &mut K) -> Result<(), Failed>
    ensures { Writes K.written K.faults sink.old sink.new
        (at_right NUMBER_COLUMNS (decimal number) ++ 32 ∷ encode_utf8_all (name_columns name.now)) result }
{
    write_piece(&Piece::RightCount(NUMBER_COLUMNS, number), sink)?;
    write_bytes(b" ", sink)?;
    write_name(name, sink)
}
