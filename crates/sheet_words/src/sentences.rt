// The sentences of an iteration.
ghost use Rattle.std.specs.Prelude.{◌≡◌, ◌∷◌, ◌++◌, ◌-◌, ◌<◌, ◌≤◌, [], codes, decimal, length, slice_index};
ghost use Rattle.plain_ballots.specs.declared.limits.TheConstants.{MOST_CANDIDATES};
ghost use Rattle.fixed_place.specs.Text.{text_of};
ghost use Rattle.meek_rule.specs.Row.{HasRoomFor};
ghost use Rattle.piece_text.specs.Writing.{Writes};
ghost use Rattle.sheet_words.specs.Lines.{numbered, numbers};
ghost use Rattle.sheet_words.specs.Manner.{said, told};
ghost use Rattle.sheet_words.specs.Sentences.{IsNamed, IsNumber, cap, defeat, lot, sentence, tie};

use crate::Voice;
use crate::decision::Decision;
use crate::elections::{say_arrival, say_choice, say_election};
use crate::group::Group;
use crate::members::members;
use crate::part::Part;
use crate::saying::{for_one_or_more, say_called, say_listing, say_parts, votes_text};
use byte_edge::{Failed, Sink};
use meek_rule::Row;
use sheet_reader::SheetValuesAt;

/// Writes a decision of an iteration, after the numbers of it.
pub(crate) fn write_decision<const P: usize, V: Voice, K: Sink>(
    voice: &V,
    values: &SheetValuesAt<P>,
    row: &Row<P>,
    decision: Decision,
    sink: &mut K,
) -> Result<(), Failed>
    requires room { HasRoomFor (length values.now.names) row.now }
    requires few { length values.now.names ≤ MOST_CANDIDATES }
    requires named { IsNamed (length values.now.names) decision }
    ensures { Writes K.written K.faults sink.old sink.new
        (told V.manner (numbered P values.now row.now decision)) result }
{
    voice.begin(sink)?;
    say_numbers(voice, row, sink)?;
    say_decision(voice, values, row, decision, sink)?;
    voice.end(sink)
}

/// Says which iteration of which round it is.
fn say_numbers<const P: usize, V: Voice, K: Sink>(
    voice: &V,
    row: &Row<P>,
    sink: &mut K,
) -> Result<(), Failed>
    ensures { Writes K.written K.faults sink.old sink.new
        (said V.manner (numbers row.now)) result }
{
    say_parts(
        voice,
        &[
            Part::Words(b"Round "),
            Part::Number(row.round as u64),
            Part::Words(b", iteration "),
            Part::Number(row.iteration),
            Part::Words(b": "),
        ],
        sink,
    )
}

fn say_decision<const P: usize, V: Voice, K: Sink>(
    voice: &V,
    values: &SheetValuesAt<P>,
    row: &Row<P>,
    decision: Decision,
    sink: &mut K,
) -> Result<(), Failed>
    requires room { HasRoomFor (length values.now.names) row.now }
    requires few { length values.now.names ≤ MOST_CANDIDATES }
    requires named { IsNamed (length values.now.names) decision }
    ensures { Writes K.written K.faults sink.old sink.new
        (said V.manner (sentence P values.now row.now decision)) result }
{
    match decision {
        Decision::Election => say_election(voice, values, row, sink),
        Decision::Arrival => say_arrival(voice, values, row, sink),
        Decision::Choice => say_choice(voice, values, row, sink),
        Decision::Cap => say_cap(voice, values, row, sink),
        Decision::Defeat(c) => say_defeat(voice, values, row, c, sink),
        Decision::Tie => say_tie(voice, values, row, sink),
        Decision::Lot(c) => say_lot(voice, values, c, sink),
    }
}

fn say_cap<const P: usize, V: Voice, K: Sink>(
    voice: &V,
    values: &SheetValuesAt<P>,
    row: &Row<P>,
    sink: &mut K,
) -> Result<(), Failed>
    requires room { HasRoomFor (length values.now.names) row.now }
    requires few { length values.now.names ≤ MOST_CANDIDATES }
    ensures { Writes K.written K.faults sink.old sink.new (said V.manner (cap P values.now row.now)) result }
{
    say_listing(voice, values, row, Group::Capped, sink)?;
    let held = for_one_or_more(
        b" has its keep value capped at one whole vote.",
        b" have their keep values capped at one whole vote.",
        members(row, Group::Capped),
    );
    say_parts(voice, &[Part::Words(held)], sink)
}

fn say_defeat<const P: usize, V: Voice, K: Sink>(
    voice: &V,
    values: &SheetValuesAt<P>,
    row: &Row<P>,
    c: u32,
    sink: &mut K,
) -> Result<(), Failed>
    requires room { HasRoomFor (length values.now.names) row.now }
    requires few { length values.now.names ≤ MOST_CANDIDATES }
    requires named { IsNumber (length values.now.names) c }
    ensures { Writes K.written K.faults sink.old sink.new (said V.manner (defeat P values.now row.now c)) result }
{
    say_called(voice, values, c as usize - 1, sink)?;
    let votes = votes_text(*row.votes.get(c as usize - 1));
    say_parts(
        voice,
        &[
            Part::Words(b" has the fewest votes, "),
            Part::Words(votes.bytes()),
            Part::Words(b", and is defeated."),
        ],
        sink,
    )
}

fn say_tie<const P: usize, V: Voice, K: Sink>(
    voice: &V,
    values: &SheetValuesAt<P>,
    row: &Row<P>,
    sink: &mut K,
) -> Result<(), Failed>
    requires room { HasRoomFor (length values.now.names) row.now }
    requires few { length values.now.names ≤ MOST_CANDIDATES }
    ensures { Writes K.written K.faults sink.old sink.new (said V.manner (tie P values.now row.now)) result }
{
    say_listing(voice, values, row, Group::Tied, sink)?;
    let surplus = votes_text(row.surplus);
    say_parts(
        voice,
        &[
            Part::Words(b" are tied: their votes are no further apart than the surplus of "),
            Part::Words(surplus.bytes()),
            Part::Words(b"."),
        ],
        sink,
    )
}

fn say_lot<const P: usize, V: Voice, K: Sink>(
    voice: &V,
    values: &SheetValuesAt<P>,
    c: u32,
    sink: &mut K,
) -> Result<(), Failed>
    requires few { length values.now.names ≤ MOST_CANDIDATES }
    requires named { IsNumber (length values.now.names) c }
    ensures { Writes K.written K.faults sink.old sink.new
        (said V.manner (lot values.now c)) result }
{
    say_parts(voice, &[Part::Words(b"The lots decide: ")], sink)?;
    say_called(voice, values, c as usize - 1, sink)?;
    say_parts(
        voice,
        &[Part::Words(b" stands first of them in the lots and is defeated.")],
        sink,
    )
}
