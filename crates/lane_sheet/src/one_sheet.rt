// The sheet of one count.
ghost use Rattle.std.specs.Prelude.{◌≡◌, ◌≤◌, length};
ghost use Rattle.plain_ballots.specs.Ballots.{plain};
ghost use Rattle.sheet_text.specs.Sheet.{IsSheet};
ghost use Rattle.vote_spread.specs.declared.limits.TheConstants.{MOST_WORKERS};
ghost use Rattle.lane_sheet.specs.Due.{WritesOrWants};

use crate::{CountText, Crew, NoMemory, Polls, begin_counts, write_in_lanes};
use byte_edge::{Failed, Gate, Sink};
use candidate_roll::Roll;
use fixed_place::Omega;
use frozen_plan::Plans;
use lot_order::Lots;
use meek_rule::Spread;
use packed_ballots::PackedBallots;
use sheet_text::sheets_are_unique;
use std::alloc::Global;
use std::slice;
use std::thread::Threads;

/// The sheet of the only count.
struct OneSheet;

impl<const P: usize> CountText<P> for OneSheet {
    ghost use Rattle.std.specs.Prelude.{◌≡◌, length};
    ghost use Rattle.lane_sheet.specs.Due.{IsOneSheet};

    ghost takes = { λ text dues. length dues ≡ 1 };

    ghost is_text = { λ text dues sheet. IsOneSheet P dues sheet };

    fn write<D: Spread<P>, K: Sink>(
        &self,
        alloc: Global,
        polls: &Polls<'_>,
        spreads: &mut [D],
        sink: &mut K,
    ) -> Result<Result<(), Failed>, NoMemory> {
        let mut counts = begin_counts(alloc, polls.rolls, polls.lots, polls.omega, spreads)?;
        match counts.pop() {
            Some(count) => Ok(count.write_sheet(sink)),
            None => unreachable!(),
        }
    }
}

/// Deals the packed ballots out among the crew's shards, counts them in its lanes, and writes the sheet. All
/// memory is taken before the first byte.
pub fn write_sheet_in_lanes<const P: usize, R: Threads + Sync, G: Gate + Sync, K: Sink>(
    crew: &Crew<'_, R, G>,
    ballots: PackedBallots,
    roll: &Roll,
    lots: &Lots,
    omega: Omega,
    sink: &mut K,
) -> Result<Result<(), Failed>, NoMemory>
    requires places { (6 ≤ P) × (P ≤ 9) }
    requires shards { 1 ≤ crew.now.shards }
    requires workers { (1 ≤ crew.now.workers) × (crew.now.workers ≤ MOST_WORKERS) }
    requires lots_of_all { length lots.now ≡ length roll.now.names }
    requires ballots_of_all { ballots.candidates ≡ length roll.now.names }
    ensures { WritesOrWants (IsSheet P omega (plain ballots.lines) roll.now lots.now)
        K.written K.faults sink.old sink.new result }
{
    // The sheet of the plans' ballots is that of the ballots.
    sheets_are_unique();
    let _candidates = roll.candidates();
    let plans = Plans::of_packed(crew.rt, crew.alloc, ballots, crew.shards, crew.workers)?;
    let polls = Polls {
        rolls: slice::from_ref(roll),
        lots,
        omega,
    };
    let listed = vec![in crew.alloc; plans]?;
    write_in_lanes::<P, R, G, OneSheet, K>(crew, listed, &polls, &OneSheet, sink)
}
