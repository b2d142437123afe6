// The sentences of the end of a count.
ghost use Rattle.std.specs.Prelude.{◌≡◌, ◌∷◌, ◌++◌, ◌<◌, ◌≤◌, [], All, length, map};
ghost use Rattle.std.specs.List.{flat_map, list_any};
ghost use Rattle.plain_ballots.specs.declared.limits.TheConstants.{MOST_CANDIDATES};
ghost use Rattle.lot_order.specs.Flags.{mark_at};
ghost use Rattle.meek_rule.specs.Row.{HasRoomFor};
ghost use Rattle.piece_text.specs.Writing.{Writes};
ghost use Rattle.sheet_reader.specs.Form.{IsPrintable, IsPrintableRow};
ghost use Rattle.sheet_words.specs.Groups.{all_places};
ghost use Rattle.sheet_words.specs.Lines.{at_end};
ghost use Rattle.sheet_words.specs.Manner.{told};
ghost use Rattle.sheet_words.specs.Phrases.{called};
ghost use Rattle.sheet_words.specs.Sentences.{decides_on, ending, is_open, late, late_at, seats_taken, sentences_at_end, strikes, takes_seat};

use crate::Voice;
use crate::part::Part;
use crate::saying::write_parts;
use byte_edge::{Failed, Sink};
use candidate_roll::State;
use meek_rule::{Row, Step};
use sheet_reader::SheetValuesAt;

/// Writes why the count ends, and what becomes of those on whom no iteration decided.
pub fn write_end<const P: usize, V: Voice, K: Sink>(
    voice: &V,
    values: &SheetValuesAt<P>,
    sink: &mut K,
) -> Result<(), Failed>
    requires printable { IsPrintable P values.now }
    ensures { Writes K.written K.faults sink.old sink.new
        (flat_map (told V.manner) (map at_end (sentences_at_end values.now))) result }
{
    write_ending(voice, values, sink)?;
    write_all_late(voice, values, sink)
}

fn write_ending<const P: usize, V: Voice, K: Sink>(
    voice: &V,
    values: &SheetValuesAt<P>,
    sink: &mut K,
) -> Result<(), Failed>
    requires printable { IsPrintable P values.now }
    ensures { Writes K.written K.faults sink.old sink.new
        (told V.manner (at_end (ending values.now ∷ []))) result }
{
    write_parts(
        voice,
        &[Part::Words(b"End: "), Part::Words(ending(values))],
        sink,
    )
}

/// Why the count ends.
fn ending<const P: usize>(values: &SheetValuesAt<P>) -> &'static [u8]
    requires printable { IsPrintable P values.now }
    ensures { result.now ≡ ending values.now }
{
    if seats_taken(values) == values.seats as usize {
        b"All seats are taken."
    } else {
        b"No more candidates are left than seats."
    }
}

/// The seats that were taken in iterations.
fn seats_taken<const P: usize>(values: &SheetValuesAt<P>) -> usize
    requires printable { IsPrintable P values.now }
    ensures { result ≡ seats_taken values.now }
{
    let mut count = 0;
    for p in 0..values.names.len() {
        if takes_seat(values, p) {
            count += 1;
        }
    }
    count
}

/// Whether some iteration elected the candidate at a place.
fn takes_seat<const P: usize>(values: &SheetValuesAt<P>, p: usize) -> bool
    requires printable { IsPrintable P values.now }
    requires place { p < length values.now.names }
    ensures { result ≡ takes_seat values.now p }
{
    elects_in(values.rows.items(), values.names.len(), p)
}

fn elects_in<const P: usize>(rows: &[Row<P>], candidates: usize, p: usize) -> bool
    requires rows { All (IsPrintableRow P candidates) rows.now }
    requires place { p < candidates }
    ensures { result ≡ list_any (λ row. mark_at row.elected p) rows.now }
{
    for row in rows {
        if *row.elected.get(p) {
            return true;
        }
    }
    false
}

fn write_all_late<const P: usize, V: Voice, K: Sink>(
    voice: &V,
    values: &SheetValuesAt<P>,
    sink: &mut K,
) -> Result<(), Failed>
    requires printable { IsPrintable P values.now }
    ensures { Writes K.written K.faults sink.old sink.new
        (flat_map (told V.manner) (map at_end (flat_map (late_at values.now) (all_places (length values.now.names))))) result }
{
    for p in 0..values.names.len() {
        write_late_at(voice, values, p, sink)?;
    }
    Ok(())
}

/// What becomes of the candidate at a place, if no iteration decided on it.
fn write_late_at<const P: usize, V: Voice, K: Sink>(
    voice: &V,
    values: &SheetValuesAt<P>,
    p: usize,
    sink: &mut K,
) -> Result<(), Failed>
    requires printable { IsPrintable P values.now }
    requires place { p < length values.now.names }
    ensures { Writes K.written K.faults sink.old sink.new
        (flat_map (told V.manner) (map at_end (late_at values.now p))) result }
{
    if !is_open(values, p) {
        return Ok(());
    }
    write_late(voice, values, p, *values.last.get(p), sink)
}

/// What becomes of a candidate who ends in this state.
fn write_late<const P: usize, V: Voice, K: Sink>(
    voice: &V,
    values: &SheetValuesAt<P>,
    p: usize,
    state: State,
    sink: &mut K,
) -> Result<(), Failed>
    requires few { length values.now.names ≤ MOST_CANDIDATES }
    requires place { p < length values.now.names }
    ensures { Writes K.written K.faults sink.old sink.new
        (flat_map (told V.manner) (map at_end (late values.now p state))) result }
{
    match state {
        State::Hopeful => Ok(()),
        State::Elected => write_seat(
            voice,
            values,
            p,
            b" is elected: there is a seat for each who remains.",
            sink,
        ),
        State::Defeated => write_seat(voice, values, p, b" is defeated: no seat is left.", sink),
        State::Withdrawn => Ok(()),
    }
}

fn write_seat<'x, const P: usize, V: Voice, K: Sink>(
    voice: &V,
    values: &'x SheetValuesAt<P>,
    p: usize,
    words: &'x [u8],
    sink: &mut K,
) -> Result<(), Failed>
    requires few { length values.now.names ≤ MOST_CANDIDATES }
    requires place { p < length values.now.names }
    ensures { Writes K.written K.faults sink.old sink.new
        (told V.manner (at_end (called values.now p ++ words.now ∷ []))) result }
{
    let name = values.names.get(p).bytes();
    write_parts(
        voice,
        &[
            Part::Words(b"End: "),
            Part::Words(name),
            Part::Words(b" ("),
            Part::Number(p as u64 + 1),
            Part::Words(b")"),
            Part::Words(words),
        ],
        sink,
    )
}

/// Whether no iteration decided on the candidate at a place.
fn is_open<const P: usize>(values: &SheetValuesAt<P>, p: usize) -> bool
    requires printable { IsPrintable P values.now }
    requires place { p < length values.now.names }
    ensures { result ≡ is_open values.now p }
{
    !decides_in(values.rows.items(), values.names.len(), p)
}

fn decides_in<const P: usize>(rows: &[Row<P>], candidates: usize, p: usize) -> bool
    requires rows { All (IsPrintableRow P candidates) rows.now }
    requires place { p < candidates }
    requires few { candidates ≤ MOST_CANDIDATES }
    ensures { result ≡ list_any (decides_on p) rows.now }
{
    for row in rows {
        if decides_on(row, p) {
            return true;
        }
    }
    false
}

/// Whether an iteration elects or defeats the candidate at a place.
fn decides_on<const P: usize>(row: &Row<P>, p: usize) -> bool
    requires room { HasRoomFor (length row.now.states) row.now }
    requires place { p < length row.now.states }
    requires few { length row.now.states ≤ MOST_CANDIDATES }
    ensures { result ≡ decides_on p row.now }
{
    *row.elected.get(p) || strikes(row.step, p)
}

/// Whether a step defeats the candidate at a place.
fn strikes(step: Step, p: usize) -> bool
    requires { p < MOST_CANDIDATES }
    ensures { result ≡ strikes step p }
{
    match step {
        Step::Elected => false,
        Step::Iterate => false,
        Step::Defeat(c) => c == p as u32 + 1,
    }
}
