// The blocks of the table.
ghost use Rattle.std.specs.Prelude.{◌≡◌, ◌-◌, ◌<◌, ◌≤◌, drop, length, take};
ghost use Rattle.std.specs.List.{flat_map};
ghost use Rattle.piece_text.specs.Writing.{Writes};
ghost use Rattle.sheet_reader.specs.Form.{IsPrintable};
ghost use Rattle.sheet_minutes.specs.Rounds.{rounds_in};
ghost use Rattle.sheet_minutes.specs.Table.{block_text, blocks, width_of};

use crate::block::write_block;
use crate::columns::{MARK_COLUMNS, ROUND_COLUMNS};
use crate::rounds::ends_round;
use crate::widths::width_of;
use byte_edge::{Failed, Sink};
use meek_rule::Row;
use sheet_reader::SheetValuesAt;

/// Writes the blocks, each with as many rounds as the columns have room for.
pub(crate) fn write_blocks<const P: usize, K: Sink>(
    values: &SheetValuesAt<P>,
    sink: &mut K,
) -> Result<(), Failed>
    requires places { (6 ≤ P) × (P ≤ 9) }
    requires printable { IsPrintable P values.now }
    ensures { Writes K.written K.faults sink.old sink.new
        (flat_map (block_text P values.now (width_of P values.now)) (blocks P values.now)) result }
{
    let width = width_of(values);
    let size = ROUND_COLUMNS / (width + MARK_COLUMNS);
    let mut first = 0;
    while first < values.rows.len() {
        let end = block_end(values.rows.items(), first, size);
        write_block(values, width, first, end, sink)?;
        first = end;
    }
    Ok(())
}

/// The place after so many rounds, from the iteration at `first` on, or after all.
fn block_end<const P: usize>(rows: &[Row<P>], first: usize, size: usize) -> usize
    requires inside { first < length rows.now }
    requires some { 0 < size }
    ensures later { first < result }
    ensures within { result ≤ length rows.now }
    ensures block { rounds_in rows.now first (result - first) ≡ take size (rounds_in rows.now first (length rows.now - first)) }
    ensures rest { rounds_in rows.now result (length rows.now - result) ≡ drop size (rounds_in rows.now first (length rows.now - first)) }
{
    let mut count = 0;
    for i in first..rows.len() {
        if ends_round(rows, i) {
            count += 1;
            if count == size {
                return i + 1;
            }
        }
    }
    rows.len()
}
