// A freeze, at a caller's desk.
ghost use Rattle.std.specs.Prelude.{◌≡◌, ◌+◌, ◌≤◌, ◌++◌, ◌∷◌, [], All, false, length, vec_len, IfOk, OnOk, OnErr};
ghost use Rattle.plain_ballots.specs.declared.limits.TheConstants.{MOST_CANDIDATES};
ghost use Rattle.call_register.specs.Marks.{MayMark, struck_by};
ghost use Rattle.call_register.specs.declared.mark.Mark.TheVariants.{Freeze};
ghost use Rattle.call_register.specs.Weaving.{freeze_entry};
ghost use Rattle.shard_office.specs.Names.{register_name};
ghost use Rattle.shard_office.specs.Sight.{GoesOn, AddsMark};
ghost use Rattle.shard_office.specs.Passes.{own};
ghost use Rattle.shard_office.specs.Desks.{pass_at, seen, made, IsSeated, Stays};
ghost use Rattle.shard_office.specs.Turned.{AreAgreed, AreNamed, ArePlansOf};
ghost use Rattle.shard_office.specs.Versions.{IsFreeze};

use crate::desk::Desk;
use crate::no_memory::NoMemory;
use crate::office::Office;
use crate::planning::plans_of;
use crate::register_value::RegisterValue;
use crate::shard_value::ShardValue;
use crate::turns::{agree_all, give_all, take_all};
use crate::version::Version;
use std::alloc::Global;
use std::sync::Wait;
use std::thread::Threads;
use turn_lock::Held;

/// Copies what stands and who is struck, under all turns, and makes room for the mark of the freeze. At most
/// so many workers make the plans.
fn copied<R: Threads + Sync>(
    rt: &R,
    alloc: Global,
    candidates: u32,
    workers: u32,
    held: &Vec<Held<ShardValue>>,
    kept: &mut Held<RegisterValue>,
) -> Result<Version, NoMemory>
    requires limits { (1 ≤ vec_len held.now) × (candidates ≤ MOST_CANDIDATES) }
    requires workers { 1 ≤ workers }
    requires register { (kept.old.register.shards ≡ vec_len held.now) × (kept.old.register.candidates ≡ candidates) }
    requires named { AreNamed (vec_len held.now) candidates held.now.items }
    requires agreed { AreAgreed (vec_len held.now) kept.old.register.marks held.now.items }
    ensures name { register_name kept.new ≡ register_name kept.old }
    ensures marks { kept.new.register.marks ≡ kept.old.register.marks }
    ensures room { OnOk result (1 ≤ kept.new.register.spare) }
    ensures may { OnOk result (All (MayMark (vec_len held.now) candidates) kept.old.register.marks) }
    ensures at { IfOk result (λ version. version.at ≡ length kept.old.register.marks + 1) }
    ensures candidates { IfOk result (λ version. version.candidates ≡ candidates) }
    ensures count { IfOk result (λ version. length version.plans ≡ vec_len held.now) }
    ensures plans { IfOk result (λ version. ArePlansOf held.now.items version.plans) }
    ensures struck { IfOk result (λ version. version.struck ≡ struck_by kept.old.register.marks) }
{
    let plans = plans_of(rt, alloc, held, workers)?;
    let register = kept.value_mut();
    register.reserve()?;
    register.vouch();
    let at = register.count() + 1;
    let struck = register.struck(alloc)?;
    Ok(Version {
        at,
        candidates,
        plans,
        struck,
    })
}

/// A freeze at this desk: it takes the turns of all shards in rising order, and then the register's.
pub(crate) fn freeze<R: Threads + Wait + Sync>(
    rt: &R,
    alloc: Global,
    office: &Office,
    desk: &mut Desk,
) -> Result<Version, NoMemory>
    requires office { desk.old.office.value ≡ office.now }
    requires seated { IsSeated desk.old }
    ensures seated { IsSeated desk.new }
    ensures stays { Stays desk.old desk.new }
    ensures goes_on { GoesOn (seen desk.old) (seen desk.new) }
    ensures frozen { IfOk result (λ version. IsFreeze office.now.shards desk.old.caller version (seen desk.old) (seen desk.new)) }
    ensures candidates { IfOk result (λ version. version.candidates ≡ office.now.candidates) }
    ensures own { OnOk result (own (pass_at desk.new) ≡ own (pass_at desk.old) ++ freeze_entry desk.old.caller ∷ []) }
    ensures mine { OnOk result (AddsMark (Freeze desk.old.caller) (made desk.old) (made desk.new)) }
    ensures refused { OnErr result (own (pass_at desk.new) ≡ own (pass_at desk.old)) }
    ensures nothing_made { OnErr result (made desk.new ≡ made desk.old) }
{
    let mut held = Vec::with_capacity(alloc, office.windows.len())?;
    take_all(rt, &office.windows, &mut desk.shards, &mut held);
    let mut kept = office.register.take(rt, &mut desk.register);
    agree_all(&office.windows, &mut held, &mut kept);
    match copied(
        rt,
        alloc,
        office.candidates,
        office.workers,
        &held,
        &mut kept,
    ) {
        Ok(version) => {
            kept.value_mut().freeze(desk.caller);
            office.register.give_with(&mut desk.register, kept);
            give_all(&office.windows, &mut desk.shards, held);
            Ok(version)
        }
        Err(_) => {
            office.register.give_back(&mut desk.register, kept);
            give_all(&office.windows, &mut desk.shards, held);
            Err(NoMemory)
        }
    }
}
