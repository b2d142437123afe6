// What each round decided.
ghost use Rattle.std.specs.List.{flat_map};
ghost use Rattle.piece_text.specs.Writing.{Writes};
ghost use Rattle.sheet_reader.specs.Form.{IsPrintable};
ghost use Rattle.sheet_words.specs.Lines.{sentences_of};
ghost use Rattle.sheet_words.specs.Manner.{told};
ghost use Rattle.sheet_minutes.specs.Minutes.{decisions_text, spoken};

use crate::spoken::Spoken;
use byte_edge::{Failed, Sink};
use piece_text::write_bytes;
use sheet_reader::SheetValuesAt;
use sheet_words::write_sentences_of;

/// Writes what the iterations of each round decided, below a title.
pub(crate) fn write_decisions<const P: usize, K: Sink>(
    values: &SheetValuesAt<P>,
    sink: &mut K,
) -> Result<(), Failed>
    requires printable { IsPrintable P values.now }
    ensures { Writes K.written K.faults sink.old sink.new (decisions_text P values.now) result }
{
    write_bytes(b"\nDecisions\n", sink)?;
    write_iterations(values, sink)
}

fn write_iterations<const P: usize, K: Sink>(
    values: &SheetValuesAt<P>,
    sink: &mut K,
) -> Result<(), Failed>
    requires printable { IsPrintable P values.now }
    ensures { Writes K.written K.faults sink.old sink.new
        (flat_map (told spoken) (flat_map (sentences_of P values.now) values.now.rows)) result }
{
    for row in values.rows.items() {
        write_sentences_of(&Spoken, values, row, sink)?;
    }
    Ok(())
}
