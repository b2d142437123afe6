// A count: from the bytes of a ballot file to the sheet.
ghost use Rattle.std.specs.Prelude.{◌≡◌, ◌≤◌, All, IfOk, IsPermutation, length};
ghost use Rattle.plain_ballots.specs.declared.limits.TheConstants.{MOST_BALLOTS, MOST_CANDIDATES};
ghost use Rattle.tool_edge.specs.declared.opening.TheConstants.{FILE_LIMIT};
ghost use Rattle.plain_ballots.specs.Ballots.{plain};
ghost use Rattle.frozen_plan.specs.Plan.{all_ballots};
ghost use Rattle.tool_edge.specs.Finishing.{FinishesOwed};
ghost use Rattle.tool_edge.specs.Streams.{writing};
ghost use Rattle.tool_edge.specs.Tool.{IsOwedFor, no_history};
ghost use Rattle.tool_edge.specs.Tools.{over_contests};
ghost use Rattle.warren_cli.specs.Owed.{OwesWarren, IsSheetOwed};

use blt_reader::Election;
use byte_edge::Sink;
use candidate_roll::Roll;
use fixed_place::Omega;
use frozen_plan::Plans;
use lot_order::Lots;
use plain_ballots::Ballots;
use sheet_text::sheets_are_unique;
use std::alloc::Global;
use tool_edge::{Contest, End, close, refuse_input};
use warren_spread::{WarrenCount, WarrenSpread, write_warren};

/// Counts the ballots of a file by these lots, and writes the sheet or the refusal.
pub(crate) fn count<K: Sink>(alloc: Global, lots: &[u32], input: &[u8], sink: &mut K) -> End
    requires { length input.now ≤ FILE_LIMIT }
    ensures { FinishesOwed (IsOwedFor (over_contests OwesWarren) lots.now input.now no_history) result
        (writing K.written K.faults sink.old sink.new) }
{
    // The sheet of the plan's ballots is that of the file's.
    sheets_are_unique();
    let Contest {
        election: Election { ballots, roll },
        lots: order,
    } = match Contest::read(alloc, lots, input) {
        Ok(contest) => contest,
        Err(stop) => return refuse_input(sink, stop),
    };
    let Ok(plans) = plans_of(alloc, ballots) else {
        return End::NoMemory;
    };
    let Ok(spread) = WarrenSpread::begin(alloc, plans, roll.candidates()) else {
        return End::NoMemory;
    };
    write_count(alloc, &roll, &order, spread, sink)
}

/// All the ballots as one plan.
fn plans_of(alloc: Global, ballots: Ballots) -> Result<Plans, frozen_plan::NoMemory>
    requires { (1 ≤ ballots.candidates) × (ballots.candidates ≤ MOST_CANDIDATES) }
    ensures candidates { IfOk result (All (λ plan. plan.candidates ≡ ballots.candidates)) }
    ensures ballots { IfOk result (λ plans. IsPermutation (all_ballots plans) (plain ballots.lines)) }
    ensures few { IfOk result (λ plans. length (all_ballots plans) ≤ MOST_BALLOTS) }
{
    Plans::dealt(alloc, ballots, 1)
}

/// Counts what a distribution holds and writes the sheet. All memory is taken before the first byte.
fn write_count<K: Sink>(
    alloc: Global,
    roll: &Roll,
    lots: &Lots,
    spread: WarrenSpread,
    sink: &mut K,
) -> End
    requires lots_of_all { length lots.now ≡ length roll.now.names }
    requires spread_of_all { spread.candidates ≡ length roll.now.names }
    requires few { length spread.ballots ≤ MOST_BALLOTS }
    ensures { FinishesOwed (IsSheetOwed spread.ballots roll.now lots.now) result
        (writing K.written K.faults sink.old sink.new) }
{
    let omega = Omega::usual();
    let Ok(mut count) = WarrenCount::begin(alloc, roll, lots, spread, omega) else {
        return End::NoMemory;
    };
    let wrote = write_warren(&mut count, sink);
    close(sink, wrote)
}
