// What became of each candidate.
ghost use Rattle.std.specs.Prelude.{◌≡◌, ◌∷◌, ◌<◌, [], codes, length, map};
ghost use Rattle.std.specs.List.{flat_map};
ghost use Rattle.piece_text.specs.Writing.{Writes};
ghost use Rattle.sheet_reader.specs.Form.{IsPrintable};
ghost use Rattle.sheet_words.specs.Groups.{all_places};
ghost use Rattle.sheet_words.specs.Lines.{results};
ghost use Rattle.sheet_words.specs.Manner.{told};
ghost use Rattle.sheet_words.specs.Sentences.{fate, outcome};

use crate::Voice;
use crate::part::Part;
use crate::saying::write_parts;
use byte_edge::{Failed, Sink};
use candidate_roll::State;
use sheet_reader::SheetValuesAt;

/// Writes what became of each candidate, below a title.
pub(crate) fn write_results<const P: usize, V: Voice, K: Sink>(
    voice: &V,
    values: &SheetValuesAt<P>,
    sink: &mut K,
) -> Result<(), Failed>
    requires printable { IsPrintable P values.now }
    ensures { Writes K.written K.faults sink.old sink.new
        (flat_map (told V.manner) (results values.now)) result }
{
    write_parts(voice, &[Part::Words(b"Result")], sink)?;
    write_outcomes(voice, values, sink)
}

/// Writes what became of each candidate, without a title.
pub fn write_outcomes<const P: usize, V: Voice, K: Sink>(
    voice: &V,
    values: &SheetValuesAt<P>,
    sink: &mut K,
) -> Result<(), Failed>
    requires printable { IsPrintable P values.now }
    ensures { Writes K.written K.faults sink.old sink.new
        (flat_map (told V.manner) (map (outcome values.now) (all_places (length values.now.names)))) result }
{
    for p in 0..values.names.len() {
        write_outcome(voice, values, p, sink)?;
    }
    Ok(())
}

fn write_outcome<const P: usize, V: Voice, K: Sink>(
    voice: &V,
    values: &SheetValuesAt<P>,
    p: usize,
    sink: &mut K,
) -> Result<(), Failed>
    requires printable { IsPrintable P values.now }
    requires place { p < length values.now.names }
    ensures { Writes K.written K.faults sink.old sink.new
        (told V.manner (outcome values.now p)) result }
{
    let name = values.names.get(p).bytes();
    write_parts(
        voice,
        &[
            Part::Words(name),
            Part::Words(b" ("),
            Part::Number(p as u64 + 1),
            Part::Words(b")"),
            Part::Words(fate(*values.last.get(p))),
        ],
        sink,
    )
}

fn fate(state: State) -> &'static [u8]
    ensures { result.now ≡ fate state }
{
    match state {
        State::Hopeful => b": hopeful",
        State::Elected => b": elected",
        State::Defeated => b": defeated",
        State::Withdrawn => b": withdrawn",
    }
}
