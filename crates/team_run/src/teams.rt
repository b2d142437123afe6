// All teams of a day.
ghost use Rattle.std.specs.Prelude.{◌≡◌, [], All, IfOk, OnOk, OnErr, IsPermutation, length, map};
ghost use Rattle.std.specs.List.Sorted.{IsNonDecreasingBy};
ghost use Rattle.team_run.specs.Teams.{script_of, IsFresh, MayRun, RisesFrom, HaveBegun, HasAllBack, AreVersionsOf};
ghost use Rattle.team_run.specs.Runs.{asked, place_of, IsReady};

use crate::closing::take_all_in;
use crate::opening::open_all;
use crate::team::Team;
use crate::threads::run_all;
use crate::{NoMemory, Versions};
use byte_edge::Gate;
use day_reader::Scripts;
use shard_office::{Clerk, Office, Version};
use std::alloc::Global;
use std::sync::Wait;
use std::thread::Threads;

/// Makes the calls of each script, each team's in a thread of its own, and takes all passes in.
///
/// The versions are those of all freezes, by their places in the history. Where a thread can't be had,
/// the caller does its work. After want of memory each team has made the first calls of its script, and
/// teams without a pass none.
pub fn run_teams<R: Threads + Wait + Sync, G: Gate + Sync>(
    rt: &R,
    alloc: Global,
    office: &Office,
    clerk: &mut Clerk,
    scripts: Scripts,
    gate: &G,
) -> Result<Versions, NoMemory>
    requires office { clerk.old.desk.office ≡ office.now }
    requires fresh { IsFresh clerk.old }
    requires scripts { MayRun office.now.candidates scripts }
    ensures clerk { HasAllBack clerk.old clerk.new }
    ensures teams { OnOk result (map script_of clerk.new.taken ≡ scripts) }
    ensures versions { IfOk result (AreVersionsOf clerk.new.taken) }
    ensures refused { OnErr result (HaveBegun clerk.new.taken scripts) }
{
    let mut teams = Vec::with_capacity(alloc, scripts.len())?;
    match open_all(alloc, office, clerk, scripts, &mut teams) {
        Ok(()) => run_opened(rt, alloc, office, clerk, teams, gate),
        Err(_) => {
            let _ = take_all_in(alloc, office, clerk, teams);
            Err(NoMemory)
        }
    }
}

/// Runs teams that have their passes, and takes them in.
fn run_opened<R: Threads + Wait + Sync, G: Gate + Sync>(
    rt: &R,
    alloc: Global,
    office: &Office,
    clerk: &mut Clerk,
    mut teams: Vec<Team>,
    gate: &G,
) -> Result<Versions, NoMemory>
    requires office { clerk.old.desk.office ≡ office.now }
    requires taken { clerk.old.taken ≡ [] }
    requires ready { All (IsReady office.now) teams.items }
    requires open_teams { clerk.old.open_teams ≡ length teams.items }
    requires numbers { RisesFrom 0 (map asked teams.items) }
    ensures clerk { HasAllBack clerk.old clerk.new }
    ensures teams { OnOk result (map script_of clerk.new.taken ≡ map asked teams.items) }
    ensures versions { IfOk result (AreVersionsOf clerk.new.taken) }
    ensures refused { OnErr result (HaveBegun clerk.new.taken (map asked teams.items)) }
{
    run_all(rt, alloc, office, &mut teams, gate);
    let versions = take_all_in(alloc, office, clerk, teams)?;
    let _ = clerk.open_teams();
    Ok(by_place(versions))
}

/// The versions by rising place.
fn by_place(mut versions: Vec<Version>) -> Versions
    ensures same { IsPermutation versions.items result }
    ensures rising { IsNonDecreasingBy place_of result }
{
    versions.sort_unstable_by_key(|version| version.at());
    Versions { list: versions }
}
