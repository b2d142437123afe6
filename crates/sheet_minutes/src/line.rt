// A line of a block.
ghost use Rattle.std.specs.Prelude.{◌-◌, ◌<◌, ◌≤◌, length};
ghost use Rattle.std.specs.List.{flat_map};
ghost use Rattle.piece_text.specs.Writing.{Writes};
ghost use Rattle.sheet_reader.specs.Form.{IsPrintable};
ghost use Rattle.sheet_text.specs.Lines.{ended};
ghost use Rattle.sheet_minutes.specs.Rounds.{rounds_in};
ghost use Rattle.sheet_minutes.specs.Table.{IsAbout, cell, line};

use crate::cell::write_cell;
use crate::entry::Entry;
use crate::label::write_label;
use crate::rounds::ends_round;
use byte_edge::{Failed, Sink};
use piece_text::write_bytes;
use sheet_reader::SheetValuesAt;

/// Writes what a line says of the rounds that end from the iteration at `first` on and before that at `end`.
pub(crate) fn write_line<const P: usize, K: Sink>(
    values: &SheetValuesAt<P>,
    width: usize,
    first: usize,
    end: usize,
    entry: Entry,
    sink: &mut K,
) -> Result<(), Failed>
    requires printable { IsPrintable P values.now }
    requires about { IsAbout (length values.now.names) entry }
    requires narrow { width ≤ 20 }
    requires from { first ≤ end }
    requires within { end ≤ length values.now.rows }
    ensures { Writes K.written K.faults sink.old sink.new
        (ended (line P values.now width (rounds_in values.now.rows first (end - first)) entry)) result }
{
    write_label(values, entry, sink)?;
    write_cells(values, width, first, end, entry, sink)?;
    write_bytes(b"\n", sink)
}

fn write_cells<const P: usize, K: Sink>(
    values: &SheetValuesAt<P>,
    width: usize,
    first: usize,
    end: usize,
    entry: Entry,
    sink: &mut K,
) -> Result<(), Failed>
    requires printable { IsPrintable P values.now }
    requires about { IsAbout (length values.now.names) entry }
    requires narrow { width ≤ 20 }
    requires from { first ≤ end }
    requires within { end ≤ length values.now.rows }
    ensures { Writes K.written K.faults sink.old sink.new
        (flat_map (cell P values.now width entry) (rounds_in values.now.rows first (end - first))) result }
{
    for i in first..end {
        if ends_round(values.rows.items(), i) {
            write_cell(values, width, entry, i, sink)?;
        }
    }
    Ok(())
}
