// The sheet of an election, written again.
ghost use Rattle.std.specs.Prelude.{◌≡◌, ◌≤◌, length};
ghost use Rattle.plain_ballots.specs.Ballots.{plain};
ghost use Rattle.meek_rule.specs.Rule.{Warren};
ghost use Rattle.sheet_text.specs.Sheet.{IsSheet, IsSheetUnder};
ghost use Rattle.lane_sheet.specs.Due.{WritesOrWants};
ghost use Rattle.sheet_check.specs.Terms.{IsSheetBy};

use crate::{NoMemory, Terms};
use blt_reader::Election;
use byte_edge::{Failed, FreeGate, Sink};
use candidate_roll::Roll;
use check_words::CountRule;
use frozen_plan::Plans;
use lane_sheet::{Crew, write_sheet_in_lanes};
use meek_count::Count;
use packed_ballots::PackedBallots;
use plain_ballots::Ballots;
use sheet_text::{sheets_are_unique, write_sheet};
use std::alloc::Global;
use std::thread::Threads;
use warren_spread::WarrenSpread;

/// Counts an election by these terms at `P` places, and writes its sheet. One worker counts; the ballots
/// are let go before the count begins, and all memory is taken before the first byte.
pub(crate) fn write_sheet_by<const P: usize, R: Threads + Sync, K: Sink>(
    rt: &R,
    alloc: Global,
    election: Election,
    terms: &Terms,
    sink: &mut K,
) -> Result<Result<(), Failed>, NoMemory>
    requires places { (6 ≤ P) × (P ≤ 9) }
    requires lots_of_all { length terms.now.lots ≡ length election.roll.names }
    requires ballots_of_all { election.ballots.candidates ≡ length election.roll.names }
    ensures { WritesOrWants (IsSheetBy terms.now P (plain election.ballots.lines) election.roll)
        K.written K.faults sink.old sink.new result }
{
    let Election { roll, ballots } = election;
    match terms.rule {
        CountRule::Meek => write_meek::<P, R, K>(rt, alloc, ballots, &roll, terms, sink),
        CountRule::Warren => write_warren::<P, K>(alloc, ballots, &roll, terms, sink),
    }
}

/// The sheet by Meek's rule. The ballots are packed, and let go line by line.
fn write_meek<const P: usize, R: Threads + Sync, K: Sink>(
    rt: &R,
    alloc: Global,
    ballots: Ballots,
    roll: &Roll,
    terms: &Terms,
    sink: &mut K,
) -> Result<Result<(), Failed>, NoMemory>
    requires places { (6 ≤ P) × (P ≤ 9) }
    requires lots_of_all { length terms.now.lots ≡ length roll.now.names }
    requires ballots_of_all { ballots.candidates ≡ length roll.now.names }
    ensures { WritesOrWants (IsSheet P terms.now.omega (plain ballots.lines) roll.now terms.now.lots)
        K.written K.faults sink.old sink.new result }
{
    // The sheet of the packed ballots is that of the ballots.
    sheets_are_unique();
    let _candidates = roll.candidates();
    let packed = PackedBallots::pack(alloc, ballots)?;
    let crew = Crew {
        rt,
        alloc,
        gate: &FreeGate,
        shards: 1,
        workers: 1,
    };
    let wrote = write_sheet_in_lanes::<P, R, FreeGate, K>(
        &crew,
        packed,
        roll,
        &terms.lots,
        terms.omega,
        sink,
    )?;
    Ok(wrote)
}

/// The sheet by Warren's rule, over all ballots as one plan.
fn write_warren<const P: usize, K: Sink>(
    alloc: Global,
    ballots: Ballots,
    roll: &Roll,
    terms: &Terms,
    sink: &mut K,
) -> Result<Result<(), Failed>, NoMemory>
    requires places { (6 ≤ P) × (P ≤ 9) }
    requires lots_of_all { length terms.now.lots ≡ length roll.now.names }
    requires ballots_of_all { ballots.candidates ≡ length roll.now.names }
    ensures { WritesOrWants (IsSheetUnder Warren P terms.now.omega (plain ballots.lines) roll.now terms.now.lots)
        K.written K.faults sink.old sink.new result }
{
    // The sheet of the plan's ballots is that of the ballots.
    sheets_are_unique();
    let candidates = roll.candidates();
    let plans = Plans::dealt(alloc, ballots, 1)?;
    let spread = WarrenSpread::begin(alloc, plans, candidates)?;
    let (lots, omega) = (&terms.lots, terms.omega);
    let mut count = Count::<'_, P, WarrenSpread>::begin(alloc, roll, lots, spread, omega)?;
    Ok(write_sheet(&mut count, sink))
}
