// Lanes over the plans of several counts, begun by several workers.
ghost use Rattle.std.specs.Prelude.{◌≤◌, All, IfOk, IfSome};
ghost use Rattle.std.specs.List.{AllZip};
ghost use Rattle.fixed_place.specs.Rounding.{scale};
ghost use Rattle.vote_spread.specs.declared.limits.TheConstants.{MOST_WORKERS};
ghost use Rattle.lane_sheet.specs.Begun.{AreLanesOf};
ghost use Rattle.lane_sheet.specs.Plans.{CanBeCounted};

use crate::{Crew, NoMemory};
use frozen_plan::Plans;
use shared_work::done_by_workers;
use std::thread::Threads;
use vote_spread::Lanes;

/// Where fewer rows than these stand in all plans, the caller's thread begins all lanes: threads cost more
/// than they bring.
const MANY: usize = 20_000;

/// Lanes over the ballots of each of these lists of plans, begun by at most as many workers as the crew has,
/// each some of them in a thread of its own. Where none can be had, the caller's thread does its work.
pub(crate) fn begin_lanes<const P: usize, R: Threads + Sync, G>(
    crew: &Crew<'_, R, G>,
    plans: Vec<Plans>,
    candidates: u32,
) -> Result<Vec<Lanes>, NoMemory>
    requires places { P ≤ 9 }
    requires workers { (1 ≤ crew.now.workers) × (crew.now.workers ≤ MOST_WORKERS) }
    requires plans { All (CanBeCounted candidates) plans.items }
    ensures { IfOk result (λ begun. AllZip (AreLanesOf (scale P) candidates) plans.items begun.items) }
{
    let threads = if rows_of(&plans) < MANY {
        1
    } else {
        crew.workers
    };
    let (alloc, workers) = (crew.alloc, crew.workers);
    let begin = |plans: Plans| -> Option<Lanes>
        requires places { P ≤ 9 }
        requires workers { (1 ≤ workers) × (workers ≤ MOST_WORKERS) }
        requires plans { CanBeCounted candidates plans }
        ensures { IfSome result (AreLanesOf (scale P) candidates plans) }
    { Lanes::begin::<P>(alloc, plans, candidates, workers).ok() };
    let Ok(begun) = done_by_workers(crew.rt, alloc, threads, plans, &begin) else {
        return Err(NoMemory);
    };
    Ok(begun)
}

/// How many rows stand in the plans of all counts.
fn rows_of(lists: &Vec<Plans>) -> usize {
    let mut rows: usize = 0;
    for plans in lists {
        rows = rows.saturating_add(rows_in(plans));
    }
    rows
}

/// How many rows stand in the plans of a count.
fn rows_in(plans: &Plans) -> usize {
    let mut rows: usize = 0;
    for plan in plans.items() {
        rows = rows.saturating_add(plan.rows().len());
    }
    rows
}
