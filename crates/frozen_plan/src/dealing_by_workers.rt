// Packed ballots dealt out among shards, and the plans of what each gets, made by several workers.
ghost use Rattle.std.specs.Prelude.{◌≡◌, ◌+◌, ◌<◌, ◌≤◌, All, IfOk, IfSome, length, IsPermutation};
ghost use Rattle.plain_ballots.specs.declared.limits.TheConstants.{MOST_BALLOTS};
ghost use Rattle.plain_ballots.specs.Ballots.{plain};
ghost use Rattle.frozen_plan.specs.Dealing.{AreOfShares};
ghost use Rattle.frozen_plan.specs.Dealt.{IsOfShare, AreOfTurns};
ghost use Rattle.frozen_plan.specs.Plan.{all_ballots};

use crate::deal::Deal;
use crate::{NoMemory, Plan, Plans};
use packed_ballots::PackedBallots;
use plain_ballots::lines_stand_for_ballots;
use shared_work::made_by_workers;
use std::alloc::Global;
use std::thread::Threads;

/// Of fewer lines than these the caller's thread makes all plans: threads cost more than they bring.
const MANY: usize = 20_000;

impl Plans {
    /// Deals the lines of packed ballots out among so many shards, the first line to the first shard, and
    /// makes a plan of what each gets, by at most so many workers: each makes the plans of some shards in a
    /// thread of its own. Where none can be had, the caller's thread does its work. The packed ballots are
    /// let go when the last plan is made.
    pub fn of_packed<R: Threads + Sync>(
        rt: &R,
        alloc: Global,
        packed: PackedBallots,
        shards: u32,
        workers: u32,
    ) -> Result<Plans, NoMemory>
        requires shards { 1 ≤ shards }
        requires workers { 1 ≤ workers }
        ensures as_many { IfOk result (λ plans. length plans ≡ shards) }
        ensures candidates { IfOk result (All (λ plan. plan.candidates ≡ packed.candidates)) }
        ensures shares { IfOk result (AreOfShares shards 1 packed.lines) }
        ensures ballots { IfOk result (λ plans. IsPermutation (all_ballots plans) (plain packed.lines)) }
        ensures few { IfOk result (λ plans. length (all_ballots plans) ≤ MOST_BALLOTS) }
    {
        lines_stand_for_ballots();
        let workers = if packed.len() < MANY { 1 } else { workers };
        let deal = Deal::of(packed, shards);
        let plans = plans_of(rt, alloc, &deal, workers)?;
        Ok(Plans::of(plans))
    }
}

/// The plan of each shard, by at most so many workers.
fn plans_of<R: Threads + Sync>(
    rt: &R,
    alloc: Global,
    deal: &Deal,
    workers: u32,
) -> Result<Vec<Plan>, NoMemory>
    requires { 1 ≤ workers }
    ensures { IfOk result (λ plans. AreOfTurns deal.now plans.items) }
{
    let shards = deal.shards();
    let make = |turn: usize| -> Option<Plan>
        requires { turn < deal.now.shards }
        ensures { IfSome result (IsOfShare deal.entry.now.candidates deal.entry.now.shards (turn + 1) deal.entry.now.lines) }
    { deal.plan_of(alloc, turn).ok() };
    let Ok(plans) = made_by_workers(rt, alloc, workers, shards as usize, &make) else {
        return Err(NoMemory);
    };
    Ok(plans)
}
