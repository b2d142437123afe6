// The plans of shards whose turns one caller holds together, made by several workers.
ghost use Rattle.std.specs.Prelude.{◌≡◌, ◌<◌, ◌≤◌, Some, IfSome, IfOk, length, slice_get, vec_len};
ghost use Rattle.shard_office.specs.Values.{SeenShard};
ghost use Rattle.shard_office.specs.Turned.{IsPlanOf, ArePlansOf};

use crate::no_memory::NoMemory;
use crate::shard_value::ShardValue;
use frozen_plan::{Plan, Plans};
use shared_work::made_by_workers;
use std::alloc::Global;
use std::thread::Threads;
use turn_lock::Held;

/// Where fewer nodes than these stand in the tries of all shards, the caller's thread makes all plans:
/// threads cost more than they bring.
const MANY: usize = 20_000;

/// A plan for each shard, by at most so many workers: each makes the plans of some shards in a thread of
/// its own. Where none can be had, the caller's thread does its work.
pub(crate) fn plans_of<R: Threads + Sync>(
    rt: &R,
    alloc: Global,
    held: &Vec<Held<ShardValue>>,
    workers: u32,
) -> Result<Plans, NoMemory>
    requires workers { 1 ≤ workers }
    ensures len { IfOk result (λ plans. length plans ≡ vec_len held.now) }
    ensures plans { IfOk result (λ plans. ArePlansOf held.now.items plans) }
{
    let workers = if nodes_of(held) < MANY { 1 } else { workers };
    let plans = plans_by(rt, alloc, held, workers)?;
    Ok(Plans::of(plans))
}

/// How many nodes stand in the tries of all shards.
fn nodes_of(held: &Vec<Held<ShardValue>>) -> usize {
    let mut nodes: usize = 0;
    for value in held {
        nodes = nodes.saturating_add(value.value().book.trie().nodes());
    }
    nodes
}

/// The plan of each shard, by at most so many workers.
fn plans_by<R: Threads + Sync>(
    rt: &R,
    alloc: Global,
    held: &[Held<ShardValue>],
    workers: u32,
) -> Result<Vec<Plan>, NoMemory>
    requires { 1 ≤ workers }
    ensures as_many { IfOk result (λ plans. vec_len plans ≡ length held.now) }
    ensures plans { IfOk result (λ plans. ArePlansOf held.now plans.items) }
{
    let make = |i: usize| -> Option<Plan>
        requires { i < length held.now }
        ensures { (v : SeenShard) → slice_get held.entry.now i ≡ Some v → IfSome result (IsPlanOf v) }
    { plan_of(alloc, &held[i]).ok() };
    let Ok(plans) = made_by_workers(rt, alloc, workers, held.len(), &make) else {
        return Err(NoMemory);
    };
    Ok(plans)
}

/// The plan of a shard's ballots.
fn plan_of(alloc: Global, value: &Held<ShardValue>) -> Result<Plan, NoMemory>
    ensures { IfOk result (IsPlanOf value.now) }
{
    Ok(Plan::from_trie(alloc, value.value().book.trie())?)
}
