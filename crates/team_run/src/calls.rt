// The calls of a team, by their kinds.
ghost use Rattle.std.specs.Prelude.{◌≡◌, ◌≤◌, ◌++◌, ◌∷◌, [], OnOk, OnErr};
ghost use Rattle.batch_core.specs.Lawful.{IsLawful};
ghost use Rattle.batch_core.specs.declared.call.Call.TheVariants as call;
ghost use Rattle.shard_office.specs.Passes.{own};
ghost use Rattle.day_lines.specs.DayHistory.{calls_of};
ghost use Rattle.team_run.specs.Runs.{freezes_of, IsSamePass, IsAtWork};

use crate::NoMemory;
use batch_core::Change;
use byte_edge::Gate;
use shard_office::{Office, Pass, Version, versions_stay};
use std::alloc::Global;
use std::sync::Wait;
use std::thread::Threads;

/// Changes a batch.
pub(crate) fn make_change<R: Wait, G: Gate>(
    rt: &R,
    office: &Office,
    pass: &mut Pass,
    change: Change,
    gate: &G,
) -> Result<(), NoMemory>
    requires office { pass.old.office ≡ office.now }
    requires lawful { IsLawful office.now.candidates change }
    ensures same { IsSamePass pass.old pass.new }
    ensures no_freeze { freezes_of pass.new ≡ freezes_of pass.old }
    ensures made { OnOk result (calls_of (own pass.new) ≡ calls_of (own pass.old) ++ call.Change change ∷ []) }
    ensures refused { OnErr result (own pass.new ≡ own pass.old) }
{
    office.call(rt, pass, change, gate)?;
    Ok(())
}

/// Strikes a candidate.
pub(crate) fn make_strike<R: Wait>(
    rt: &R,
    office: &Office,
    pass: &mut Pass,
    candidate: u32,
) -> Result<(), NoMemory>
    requires office { pass.old.office ≡ office.now }
    requires candidate { (1 ≤ candidate) × (candidate ≤ office.now.candidates) }
    ensures same { IsSamePass pass.old pass.new }
    ensures no_freeze { freezes_of pass.new ≡ freezes_of pass.old }
    ensures made { OnOk result (calls_of (own pass.new) ≡ calls_of (own pass.old) ++ call.Strike candidate ∷ []) }
    ensures refused { OnErr result (own pass.new ≡ own pass.old) }
{
    office.strike(rt, pass, candidate)?;
    Ok(())
}

/// Freezes. Room for the version is made before, so that no freeze is without its version.
pub(crate) fn make_freeze<R: Threads + Wait + Sync>(
    rt: &R,
    alloc: Global,
    office: &Office,
    pass: &mut Pass,
    versions: &mut Vec<Version>,
) -> Result<(), NoMemory>
    requires office { pass.old.office ≡ office.now }
    requires work { IsAtWork pass.old versions.old.items }
    ensures same { IsSamePass pass.old pass.new }
    ensures work { IsAtWork pass.new versions.new.items }
    ensures made { OnOk result (calls_of (own pass.new) ≡ calls_of (own pass.old) ++ call.Freeze ∷ []) }
    ensures refused { OnErr result (own pass.new ≡ own pass.old) }
{
    versions_stay();
    versions.reserve(1)?;
    let version = office.freeze(rt, alloc, pass)?;
    versions.push_reserved(version);
    Ok(())
}
