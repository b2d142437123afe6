// What is counted for the freezes of a history.
ghost use Rattle.std.specs.Prelude.{◌≡◌, All, IfOk, length, map};
ghost use Rattle.lane_sheet.specs.Plans.{CanBeCounted};
ghost use Rattle.day_lines.specs.DayText.{roll_with};

use crate::{Frozen, NoMemory};
use candidate_roll::Roll;
use frozen_plan::Plans;
use std::alloc::Global;

/// The roll of each sheet, in which those struck before its freeze are withdrawn besides.
pub(crate) fn rolls_of(alloc: Global, roll: &Roll, frozen: &[Frozen]) -> Result<Vec<Roll>, NoMemory>
    requires { All (λ version. version.candidates ≡ length roll.now.names) frozen.now }
    ensures { IfOk result (λ rolls. rolls.items ≡ map (λ version. roll_with roll.now version.struck) frozen.now) }
{
    let mut rolls = Vec::new(alloc);
    for version in frozen {
        rolls.push(roll.with_struck(alloc, version.struck())?)?;
    }
    Ok(rolls)
}

/// The place of each freeze.
pub(crate) fn places_of(alloc: Global, frozen: &[Frozen]) -> Result<Vec<u64>, NoMemory>
    ensures { IfOk result (λ places. places.items ≡ map (λ version. version.at) frozen.now) }
{
    let places = frozen.iter().map(|version| version.at()).collect(alloc)?;
    Ok(places)
}

/// The plans of what stood at each freeze of an office of so many candidates.
pub(crate) fn plans_of(
    alloc: Global,
    frozen: Vec<Frozen>,
    candidates: u32,
) -> Result<Vec<Plans>, NoMemory>
    requires { All (λ version. version.candidates ≡ candidates) frozen.items }
    ensures plans { IfOk result (λ plans. plans.items ≡ map (λ version. version.plans) frozen.items) }
    ensures counted { IfOk result (λ plans. All (CanBeCounted candidates) plans.items) }
{
    let mut plans = Vec::new(alloc);
    for version in frozen {
        plans.push(version.into_plans())?;
    }
    Ok(plans)
}
