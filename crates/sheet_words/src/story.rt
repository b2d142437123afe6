// The decisions of a whole count.
ghost use Rattle.std.specs.List.{flat_map};
ghost use Rattle.piece_text.specs.Writing.{Writes};
ghost use Rattle.sheet_reader.specs.Form.{IsPrintable};
ghost use Rattle.sheet_text.specs.Lines.{text_of_lines};
ghost use Rattle.sheet_words.specs.Lines.{decision_lines, sentences, sentences_of};
ghost use Rattle.sheet_words.specs.Manner.{told};

use crate::decisions::write_sentences_of;
use crate::end::write_end;
use crate::results::write_results;
use crate::{Lines, Voice};
use byte_edge::{Failed, Sink};
use sheet_reader::SheetValuesAt;

/// Writes what a count decided as lines of text: a line for each sentence.
pub fn write_decisions<const P: usize, K: Sink>(
    values: &SheetValuesAt<P>,
    sink: &mut K,
) -> Result<(), Failed>
    requires printable { IsPrintable P values.now }
    ensures { Writes K.written K.faults sink.old sink.new
        (text_of_lines (decision_lines P values.now)) result }
{
    write_sentences(&Lines, values, sink)
}

/// Writes the sentences of a whole count in the manner of a voice.
pub fn write_sentences<const P: usize, V: Voice, K: Sink>(
    voice: &V,
    values: &SheetValuesAt<P>,
    sink: &mut K,
) -> Result<(), Failed>
    requires printable { IsPrintable P values.now }
    ensures { Writes K.written K.faults sink.old sink.new
        (flat_map (told V.manner) (sentences P values.now)) result }
{
    write_iterations(voice, values, sink)?;
    write_end(voice, values, sink)?;
    write_results(voice, values, sink)
}

fn write_iterations<const P: usize, V: Voice, K: Sink>(
    voice: &V,
    values: &SheetValuesAt<P>,
    sink: &mut K,
) -> Result<(), Failed>
    requires printable { IsPrintable P values.now }
    ensures { Writes K.written K.faults sink.old sink.new
        (flat_map (told V.manner) (flat_map (sentences_of P values.now) values.now.rows)) result }
{
    for row in values.rows.items() {
        write_sentences_of(voice, values, row, sink)?;
    }
    Ok(())
}
