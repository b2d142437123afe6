// The text of a day, as the text of its counts.
ghost use Rattle.std.specs.Prelude.{All};
ghost use Rattle.sheet_text.specs.Lines.{ended};
ghost use Rattle.piece_text.specs.Writing.{Writes as WritesBytes};
ghost use Rattle.lane_sheet.specs.Due.{HasSheet, WritesSome};
ghost use Rattle.day_lines.specs.DayText.{sheet_line};
ghost use Rattle.day_sheets.specs.DueSheets.{sheets_at, IsDayTextOf, IsDueText, AreDueTexts};

use byte_edge::{Failed, Sink, write_all};
use call_register::History;
use day_lines::write_entries;
use lane_sheet::{BegunCount, CountText, NoMemory, Polls, begin_counts};
use line_text::Line;
use meek_rule::Spread;
use std::alloc::Global;

/// The text of a day: the lines of these answered calls, and then the sheets of their freezes, whose numbers among
/// the calls are the places.
#[derive(Drop)]
pub struct DayText<'a> {
    pub history: &'a History,
    pub places: &'a [u64],
}

impl<'a, const P: usize> CountText<P> for DayText<'a> {
    ghost use Rattle.day_sheets.specs.DueSheets.{IsDayTextOf};

    ghost takes = { λ text dues. Unit {0} };

    ghost is_text = { λ text dues bytes. IsDayTextOf P text.history.now text.places.now dues bytes };

    fn write<D: Spread<P>, K: Sink>(
        &self,
        alloc: Global,
        polls: &Polls<'_>,
        spreads: &mut [D],
        sink: &mut K,
    ) -> Result<Result<(), Failed>, NoMemory> {
        let counts = begin_counts(alloc, polls.rolls, polls.lots, polls.omega, spreads)?;
        Ok(self.write_all(counts, sink))
    }
}

impl<'a> DayText<'a> {
    /// Writes the lines of the answered calls, and then the sheets.
    fn write_all<const P: usize, D: Spread<P>, K: Sink>(
        &self,
        counts: Vec<BegunCount<'_, P, D>>,
        sink: &mut K,
    ) -> Result<(), Failed>
        requires { All (HasSheet P) counts.items }
        ensures { WritesSome (IsDayTextOf P self.now.history.now self.now.places.now counts.entry.items)
            K.written K.faults sink.old sink.new result }
    {
        write_entries(self.history, sink)?;
        write_sheets(self.places, counts, sink)
    }
}

/// Writes the sheets of these places, one after another.
#[tactic(auto, using(crate::proofs::DueTexts::writing_begins))]
fn write_sheets<const P: usize, D: Spread<P>, K: Sink>(
    places: &[u64],
    counts: Vec<BegunCount<'_, P, D>>,
    sink: &mut K,
) -> Result<(), Failed>
    requires { All (HasSheet P) counts.items }
    ensures { WritesSome (AreDueTexts P (sheets_at places.now counts.entry.items))
        K.written K.faults sink.old sink.new result }
{
    for (at, count) in places.iter().zip(counts) {
        write_due(*at, count, sink)?;
    }
    Ok(())
}

/// Writes the line of a freeze, and then counts to the end and writes the sheet.
fn write_due<const P: usize, D: Spread<P>, K: Sink>(
    at: u64,
    count: BegunCount<'_, P, D>,
    sink: &mut K,
) -> Result<(), Failed>
    requires { HasSheet P count }
    ensures { WritesSome (IsDueText P (record { at = at; due = count.entry }))
        K.written K.faults sink.old sink.new result }
{
    write_sheet_line(at, sink)?;
    count.write_sheet(sink)
}

/// Writes the line that names the freeze of a sheet.
#[tactic(auto, using(crate::proofs::Rooms::rooms))]
fn write_sheet_line<K: Sink>(at: u64, sink: &mut K) -> Result<(), Failed>
    ensures { WritesBytes K.written K.faults sink.old sink.new (ended (sheet_line at)) result }
{
    let mut line = Line::new();
    line.push_bytes(b"sheet ");
    line.push_count(at);
    line.push_bytes(b"\n");
    write_all(sink, line.bytes())
}
