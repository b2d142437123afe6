// The summary of a made day, as the text of its count.
ghost use Rattle.std.specs.Prelude.{◌≤◌, length};
ghost use Rattle.fixed_place.specs.Rounding.{scale};
ghost use Rattle.batch_core.specs.Histories.{IsLegal};
ghost use Rattle.meek_count.specs.Progress.{HasJustBegun};
ghost use Rattle.lane_sheet.specs.Due.{due_in, WritesSome};
ghost use Rattle.day_sheets.specs.Standing.{HaveNumbers};
ghost use Rattle.day_sheets.specs.Summary.{IsSummaryDue};

use crate::counted_out::count_out;
use crate::standing::standing_batches;
use crate::summary::Summary;
use byte_edge::{Failed, Sink, write_all};
use call_register::History;
use lane_sheet::{CountText, NoMemory, Polls, begin_counts};
use lent_spread::Lent;
use meek_count::Count;
use meek_rule::Spread;
use std::alloc::Global;

/// The summary of the made day of this number whose calls are these.
#[derive(Drop)]
pub struct SummaryText<'a> {
    pub number: u32,
    pub history: &'a History,
}

impl<'a> CountText<9> for SummaryText<'a> {
    ghost use Rattle.batch_core.specs.Histories.{IsLegal};
    ghost use Rattle.day_sheets.specs.Standing.{HaveNumbers};
    ghost use Rattle.day_sheets.specs.Summary.{IsOnlySummary, IsSummedUp};

    ghost takes = { λ text dues. IsLegal text.history.now × HaveNumbers text.history.now × IsSummedUp dues };

    ghost is_text = { λ text dues bytes. IsOnlySummary text.number 9 text.history.now dues bytes };

    fn write<D: Spread<9>, K: Sink>(
        &self,
        alloc: Global,
        polls: &Polls<'_>,
        spreads: &mut [D],
        sink: &mut K,
    ) -> Result<Result<(), Failed>, NoMemory> {
        let mut counts = begin_counts(alloc, polls.rolls, polls.lots, polls.omega, spreads)?;
        match counts.pop() {
            Some(begun) => Ok(self.sum_up(begun.into_count(), sink)),
            None => unreachable!(),
        }
    }
}

impl<'a> SummaryText<'a> {
    /// Counts to the end, and writes the summary.
    fn sum_up<D: Spread<9>, K: Sink>(
        &self,
        mut count: Count<'_, 9, Lent<'_, D>>,
        sink: &mut K,
    ) -> Result<(), Failed>
        requires begun { HasJustBegun (scale 9) count }
        requires few { length count.roll.names ≤ 12 }
        requires legal { IsLegal self.now.history.now }
        requires numbers { HaveNumbers self.now.history.now }
        ensures { WritesSome (IsSummaryDue self.now.number 9 self.now.history.now (due_in count.entry))
            K.written K.faults sink.old sink.new result }
    {
        let ballots = count.ballots();
        let _of_all = count.states();
        let turns = count_out(&mut count);
        let entries = self.history.entries().items();
        let summary = Summary {
            number: self.number,
            calls: entries.len() as u64,
            batches: standing_batches(entries),
            ballots,
            rounds: turns.rounds,
            iterations: turns.iterations,
        };
        let text = summary.text(count.states());
        write_all(sink, text.bytes())
    }
}
