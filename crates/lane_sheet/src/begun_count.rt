// A count that was just begun.
ghost use Rattle.std.specs.Prelude.{◌≡◌, ◌≤◌, length, IfOk};
ghost use Rattle.plain_ballots.specs.declared.limits.TheConstants.{MOST_BALLOTS};
ghost use Rattle.fixed_place.specs.Rounding.{scale};
ghost use Rattle.meek_count.specs.Progress.{HasJustBegun};
ghost use Rattle.meek_rule.specs.Rule.{Meek};
ghost use Rattle.lane_sheet.specs.Due.{due_in, due_of, HasSheet, IsSheetDue, WritesSome};

use crate::NoMemory;
use byte_edge::{Failed, Sink};
use candidate_roll::Roll;
use fixed_place::Omega;
use lent_spread::Lent;
use lot_order::Lots;
use meek_count::Count;
use meek_rule::Spread;
use sheet_text::write_sheet;
use std::alloc::Global;
use std::marker::Model;

/// A count that was just begun over a distribution that it borrows. It has all memory that its
/// iterations and its sheet need.
#[derive(Drop)]
pub struct BegunCount<'e, const P: usize, D: Spread<P>> {
    count: Count<'e, P, Lent<'e, D>>,
}

impl<'e, const P: usize, D: Spread<P>> Model for BegunCount<'e, P, D> {
    ghost use Rattle.fixed_place.specs.Rounding.{scale};
    ghost use Rattle.meek_count.specs.Progress.{HasJustBegun};
    ghost use Rattle.lane_sheet.specs.Due.{CountDue};

    ghost Value = { CountDue };

    ghost view = { λ b. record { omega = b.count.situation.omega; ballots = b.count.ballots; roll = b.count.roll; lots = b.count.lots } };

    ghost invariant = { λ b. HasJustBegun (scale P) b.count };
}

impl<'e, const P: usize, D: Spread<P>> BegunCount<'e, P, D> {
    /// Begins to count what a distribution holds.
    pub(crate) fn begin(
        alloc: Global,
        roll: &'e Roll,
        lots: &'e Lots,
        omega: Omega,
        spread: &'e mut D,
    ) -> Result<BegunCount<'e, P, D>, NoMemory>
        requires places { (6 ≤ P) × (P ≤ 9) }
        requires lots_of_all { length lots.now ≡ length roll.now.names }
        requires rule { D.rule ≡ Meek }
        requires can { D.can_spread spread.old }
        requires spread_of_all { D.candidates spread.old ≡ length roll.now.names }
        requires few { length (D.ballots spread.old) ≤ MOST_BALLOTS }
        ensures due { IfOk result (λ begun. begun ≡ due_of omega lots.now roll.now (D.ballots spread.old)) }
        ensures sheet { IfOk result (HasSheet P) }
    {
        let count = Count::begin(alloc, roll, lots, Lent { spread }, omega)?;
        Ok(BegunCount { count })
    }

    /// Counts to the end, and writes the sheet.
    pub fn write_sheet<K: Sink>(self, sink: &mut K) -> Result<(), Failed>
        ensures { WritesSome (IsSheetDue P self.entry) K.written K.faults sink.old sink.new result }
    {
        let BegunCount { mut count } = self;
        write_sheet(&mut count, sink)
    }

    /// The count, to be made in another way.
    pub fn into_count(self) -> Count<'e, P, Lent<'e, D>>
        ensures begun { HasJustBegun (scale P) result }
        ensures due { due_in result ≡ self.entry }
    {
        self.count
    }
}
