// The whole text.
ghost use Rattle.std.specs.Prelude.{◌≤◌};
ghost use Rattle.piece_text.specs.Writing.{Writes};
ghost use Rattle.sheet_reader.specs.Form.{IsPrintable};
ghost use Rattle.sheet_minutes.specs.Minutes.{minutes_text};

use crate::decisions::write_decisions;
use crate::heading::write_heading;
use crate::result::write_result;
use crate::table::write_table;
use byte_edge::{Failed, Sink};
use sheet_reader::SheetValuesAt;

/// Writes the values of a sheet as a text for a terminal, a mail or the minutes.
pub fn write_minutes<const P: usize, K: Sink>(
    values: &SheetValuesAt<P>,
    sink: &mut K,
) -> Result<(), Failed>
    requires places { (6 ≤ P) × (P ≤ 9) }
    requires printable { IsPrintable P values.now }
    ensures { Writes K.written K.faults sink.old sink.new (minutes_text P values.now) result }
{
    write_heading(values, sink)?;
    write_result(values, sink)?;
    write_table(values, sink)?;
    write_decisions(values, sink)
}
