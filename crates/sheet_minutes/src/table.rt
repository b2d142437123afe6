// The table of rounds.
ghost use Rattle.std.specs.Prelude.{◌≤◌};
ghost use Rattle.piece_text.specs.Writing.{Writes};
ghost use Rattle.sheet_reader.specs.Form.{IsPrintable};
ghost use Rattle.sheet_minutes.specs.Table.{table_text};

use crate::blocks::write_blocks;
use byte_edge::{Failed, Sink};
use piece_text::write_bytes;
use sheet_reader::SheetValuesAt;

const HEAD: &[u8] = b"\nVotes at the end of each round\n\
    Behind each round: H hopeful, E elected, D defeated, W withdrawn\n";

/// Writes the table of rounds, below its title and what its marks say.
pub(crate) fn write_table<const P: usize, K: Sink>(
    values: &SheetValuesAt<P>,
    sink: &mut K,
) -> Result<(), Failed>
    requires places { (6 ≤ P) × (P ≤ 9) }
    requires printable { IsPrintable P values.now }
    ensures { Writes K.written K.faults sink.old sink.new (table_text P values.now) result }
{
    write_bytes(HEAD, sink)?;
    write_blocks(values, sink)
}
