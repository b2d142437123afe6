// A block of the table.
ghost use Rattle.std.specs.Prelude.{◌∷◌, ◌-◌, ◌≤◌, length};
ghost use Rattle.std.specs.List.{flat_map, range_with_len};
ghost use Rattle.piece_text.specs.Writing.{Writes};
ghost use Rattle.sheet_reader.specs.Form.{IsPrintable};
ghost use Rattle.sheet_text.specs.Lines.{ended};
ghost use Rattle.sheet_minutes.specs.declared.entry.Entry.TheVariants.{Candidate};
ghost use Rattle.sheet_minutes.specs.Rounds.{rounds_in};
ghost use Rattle.sheet_minutes.specs.Table.{block_text, line};

use crate::entry::Entry;
use crate::line::write_line;
use byte_edge::{Failed, Sink};
use piece_text::write_bytes;
use sheet_reader::SheetValuesAt;

/// Writes an empty line, and the rounds that end from the iteration at `first` on and before that at `end`.
pub(crate) fn write_block<const P: usize, K: Sink>(
    values: &SheetValuesAt<P>,
    width: usize,
    first: usize,
    end: usize,
    sink: &mut K,
) -> Result<(), Failed>
    requires printable { IsPrintable P values.now }
    requires narrow { width ≤ 20 }
    requires from { first ≤ end }
    requires within { end ≤ length values.now.rows }
    ensures { Writes K.written K.faults sink.old sink.new
        (block_text P values.now width (rounds_in values.now.rows first (end - first))) result }
{
    write_bytes(b"\n", sink)?;
    write_line(values, width, first, end, Entry::Round, sink)?;
    write_line(values, width, first, end, Entry::Quota, sink)?;
    write_line(values, width, first, end, Entry::LeftOver, sink)?;
    write_candidates(values, width, first, end, sink)
}

/// Writes a line for each candidate.
fn write_candidates<const P: usize, K: Sink>(
    values: &SheetValuesAt<P>,
    width: usize,
    first: usize,
    end: usize,
    sink: &mut K,
) -> Result<(), Failed>
    requires printable { IsPrintable P values.now }
    requires narrow { width ≤ 20 }
    requires from { first ≤ end }
    requires within { end ≤ length values.now.rows }
    ensures { Writes K.written K.faults sink.old sink.new
        (flat_map (λ p. ended (line P values.now width (rounds_in values.now.rows first (end - first)) (Candidate p)))
        (range_with_len 0 (length values.now.names))) result }
{
    for p in 0..values.names.len() {
        write_line(values, width, first, end, Entry::Candidate(p), sink)?;
    }
    Ok(())
}
