// The result.
ghost use Rattle.piece_text.specs.Writing.{Writes};
ghost use Rattle.sheet_reader.specs.Form.{IsPrintable};
ghost use Rattle.sheet_minutes.specs.Minutes.{result_text};

use crate::spoken::Spoken;
use byte_edge::{Failed, Sink};
use piece_text::write_bytes;
use sheet_reader::SheetValuesAt;
use sheet_words::{write_end, write_outcomes};

/// Writes why the count ended, and what became of each candidate.
pub(crate) fn write_result<const P: usize, K: Sink>(
    values: &SheetValuesAt<P>,
    sink: &mut K,
) -> Result<(), Failed>
    requires printable { IsPrintable P values.now }
    ensures { Writes K.written K.faults sink.old sink.new (result_text values.now) result }
{
    write_bytes(b"\nResult\n", sink)?;
    write_end(&Spoken, values, sink)?;
    write_outcomes(&Spoken, values, sink)
}
