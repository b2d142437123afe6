// The decisions of an iteration.
ghost use Rattle.std.specs.Prelude.{◌≡◌, ◌∷◌, ◌≤◌, [], length, map};
ghost use Rattle.std.specs.List.{flat_map};
ghost use Rattle.plain_ballots.specs.declared.limits.TheConstants.{MOST_CANDIDATES};
ghost use Rattle.meek_count.specs.Ranges.{HasTiedFor};
ghost use Rattle.meek_rule.specs.Row.{HasRoomFor};
ghost use Rattle.piece_text.specs.Writing.{Writes};
ghost use Rattle.sheet_reader.specs.Form.{IsPrintableRow};
ghost use Rattle.sheet_words.specs.Lines.{numbered, sentences_of};
ghost use Rattle.sheet_words.specs.Manner.{told};
ghost use Rattle.sheet_words.specs.Sentences.{IsNamed, IsNumber, caps, defeats_of, elections, has_tie};

use crate::Voice;
use crate::decision::Decision;
use crate::group::Group;
use crate::members::members;
use crate::sentences::write_decision;
use byte_edge::{Failed, Sink};
use meek_rule::{Row, Step};
use sheet_reader::SheetValuesAt;

/// Writes the sentences of an iteration.
pub fn write_sentences_of<const P: usize, V: Voice, K: Sink>(
    voice: &V,
    values: &SheetValuesAt<P>,
    row: &Row<P>,
    sink: &mut K,
) -> Result<(), Failed>
    requires few { length values.now.names ≤ MOST_CANDIDATES }
    requires printable { IsPrintableRow P (length values.now.names) row.now }
    ensures { Writes K.written K.faults sink.old sink.new
        (flat_map (told V.manner) (sentences_of P values.now row.now)) result }
{
    write_elections(voice, values, row, sink)?;
    write_caps(voice, values, row, sink)?;
    write_defeats(voice, values, row, sink)
}

fn write_elections<const P: usize, V: Voice, K: Sink>(
    voice: &V,
    values: &SheetValuesAt<P>,
    row: &Row<P>,
    sink: &mut K,
) -> Result<(), Failed>
    requires few { length values.now.names ≤ MOST_CANDIDATES }
    requires room { HasRoomFor (length values.now.names) row.now }
    ensures { Writes K.written K.faults sink.old sink.new
        (flat_map (told V.manner) (map (numbered P values.now row.now) (elections row.now))) result }
{
    if members(row, Group::Elected) == 0 {
        return Ok(());
    }
    if members(row, Group::LeftOut) == 0 {
        return write_one(voice, values, row, Decision::Election, sink);
    }
    write_two(
        voice,
        values,
        row,
        Decision::Arrival,
        Decision::Choice,
        sink,
    )
}

fn write_caps<const P: usize, V: Voice, K: Sink>(
    voice: &V,
    values: &SheetValuesAt<P>,
    row: &Row<P>,
    sink: &mut K,
) -> Result<(), Failed>
    requires few { length values.now.names ≤ MOST_CANDIDATES }
    requires room { HasRoomFor (length values.now.names) row.now }
    ensures { Writes K.written K.faults sink.old sink.new
        (flat_map (told V.manner) (map (numbered P values.now row.now) (caps row.now))) result }
{
    if members(row, Group::Capped) == 0 {
        return Ok(());
    }
    write_one(voice, values, row, Decision::Cap, sink)
}

fn write_defeats<const P: usize, V: Voice, K: Sink>(
    voice: &V,
    values: &SheetValuesAt<P>,
    row: &Row<P>,
    sink: &mut K,
) -> Result<(), Failed>
    requires few { length values.now.names ≤ MOST_CANDIDATES }
    requires room { HasRoomFor (length values.now.names) row.now }
    requires tied { HasTiedFor (length values.now.names) row.now.step row.now.tied }
    ensures { Writes K.written K.faults sink.old sink.new
        (flat_map (told V.manner) (map (numbered P values.now row.now) (defeats_of row.now row.now.step))) result }
{
    match row.step {
        Step::Elected => Ok(()),
        Step::Iterate => Ok(()),
        Step::Defeat(c) => write_defeat_of(voice, values, row, c, sink),
    }
}

/// Writes the defeat of candidate `c`, with the tie that the lots decided, if there is one.
fn write_defeat_of<const P: usize, V: Voice, K: Sink>(
    voice: &V,
    values: &SheetValuesAt<P>,
    row: &Row<P>,
    c: u32,
    sink: &mut K,
) -> Result<(), Failed>
    requires few { length values.now.names ≤ MOST_CANDIDATES }
    requires room { HasRoomFor (length values.now.names) row.now }
    requires named { IsNumber (length values.now.names) c }
    ensures { Writes K.written K.faults sink.old sink.new
        (flat_map (told V.manner) (map (numbered P values.now row.now) (defeats_of row.now (Step.Defeat c)))) result }
{
    if has_tie(row) {
        return write_two(voice, values, row, Decision::Tie, Decision::Lot(c), sink);
    }
    write_one(voice, values, row, Decision::Defeat(c), sink)
}

/// Whether two or more are tied for a defeat.
pub(crate) fn has_tie<const P: usize>(row: &Row<P>) -> bool
    requires room { HasRoomFor (length row.now.states) row.now }
    ensures { result ≡ has_tie row.now }
{
    2 <= members(row, Group::Tied)
}

fn write_one<const P: usize, V: Voice, K: Sink>(
    voice: &V,
    values: &SheetValuesAt<P>,
    row: &Row<P>,
    decision: Decision,
    sink: &mut K,
) -> Result<(), Failed>
    requires few { length values.now.names ≤ MOST_CANDIDATES }
    requires room { HasRoomFor (length values.now.names) row.now }
    requires named { IsNamed (length values.now.names) decision }
    ensures { Writes K.written K.faults sink.old sink.new
        (flat_map (told V.manner) (map (numbered P values.now row.now) (decision ∷ []))) result }
{
    write_decision(voice, values, row, decision, sink)
}

fn write_two<const P: usize, V: Voice, K: Sink>(
    voice: &V,
    values: &SheetValuesAt<P>,
    row: &Row<P>,
    first: Decision,
    second: Decision,
    sink: &mut K,
) -> Result<(), Failed>
    requires few { length values.now.names ≤ MOST_CANDIDATES }
    requires room { HasRoomFor (length values.now.names) row.now }
    requires first_named { IsNamed (length values.now.names) first }
    requires second_named { IsNamed (length values.now.names) second }
    ensures { Writes K.written K.faults sink.old sink.new
        (flat_map (told V.manner) (map (numbered P values.now row.now) (first ∷ second ∷ []))) result }
{
    write_decision(voice, values, row, first, sink)?;
    write_one(voice, values, row, second, sink)
}
