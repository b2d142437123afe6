// The sheets of a day: what stood at each freeze is counted, and all is written.
ghost use Rattle.std.specs.Prelude.{◌≡◌, ◌≤◌, map, length, All, IfOk};
ghost use Rattle.lane_sheet.specs.Due.{WritesOrWants};
ghost use Rattle.lane_sheet.specs.Plans.{CanBeCounted};
ghost use Rattle.day_lines.specs.DayText.{roll_with, IsDayText};
ghost use Rattle.day_sheets.specs.Frozen.{AreFrozen};

use crate::NoMemory;
use crate::hands::Hands;
use byte_edge::{Failed, Gate, Sink};
use call_register::History;
use candidate_roll::Roll;
use day_lines::Terms;
use day_sheets::DayText;
use frozen_plan::Plans;
use lane_sheet::{Polls, write_in_lanes};
use shard_office::Version;
use sheet_text::sheets_are_unique;
use std::alloc::Global;
use std::thread::Threads;
use team_run::Versions;

/// Counts what stood at each freeze at so many places, in lanes, and writes the text of the day. All
/// memory is taken before the first byte.
pub(crate) fn count_day<const P: usize, R: Threads + Sync, G: Gate + Sync, K: Sink>(
    hands: &Hands<'_, R, G>,
    terms: &Terms,
    history: &History,
    versions: Versions,
    sink: &mut K,
) -> Result<Result<(), Failed>, NoMemory>
    requires places { (6 ≤ P) × (P ≤ 9) }
    requires of_terms { terms.now.places ≡ P }
    requires lots_of_all { length terms.now.lots ≡ length terms.now.roll.names }
    requires frozen { AreFrozen (length terms.now.roll.names) history.now versions }
    ensures { WritesOrWants (IsDayText terms.now history.now)
        K.written K.faults sink.old sink.new result }
{
    // The sheet of a version's ballots is that of the ballots that stand, in whatever order.
    sheets_are_unique();
    let rolls = rolls_of(hands.alloc, &terms.roll, versions.items())?;
    let places = places_of(hands.alloc, versions.items())?;
    let plans = plans_of(hands.alloc, versions, terms.roll.candidates())?;
    let polls = Polls {
        rolls: rolls.as_slice(),
        lots: &terms.lots,
        omega: terms.omega,
    };
    let text = DayText {
        history,
        places: places.as_slice(),
    };
    let crew = hands.crew();
    let wrote = write_in_lanes::<P, R, G, DayText<'_>, K>(&crew, plans, &polls, &text, sink)?;
    Ok(wrote)
}

/// The roll of each sheet, in which those struck before its freeze are withdrawn besides.
fn rolls_of(alloc: Global, roll: &Roll, versions: &[Version]) -> Result<Vec<Roll>, NoMemory>
    requires { All (λ version. version.candidates ≡ length roll.now.names) versions.now }
    ensures { IfOk result (λ rolls. rolls.items ≡ map (λ version. roll_with roll.now version.struck) versions.now) }
{
    let mut rolls = Vec::new(alloc);
    for version in versions {
        rolls.push(roll.with_struck(alloc, version.struck())?)?;
    }
    Ok(rolls)
}

/// The place of each freeze.
fn places_of(alloc: Global, versions: &[Version]) -> Result<Vec<u64>, NoMemory>
    ensures { IfOk result (λ places. places.items ≡ map (λ version. version.at) versions.now) }
{
    let places = versions.iter().map(|version| version.at()).collect(alloc)?;
    Ok(places)
}

/// The plans of the ballots that stood at each freeze of an office of so many candidates.
fn plans_of(alloc: Global, versions: Versions, candidates: u32) -> Result<Vec<Plans>, NoMemory>
    requires { All (λ version. version.candidates ≡ candidates) versions }
    ensures plans { IfOk result (λ plans. plans.items ≡ map (λ version. version.plans) versions) }
    ensures counted { IfOk result (λ plans. All (CanBeCounted candidates) plans.items) }
{
    let mut plans = Vec::new(alloc);
    for version in versions.into_items() {
        plans.push(version.into_plans())?;
    }
    Ok(plans)
}
