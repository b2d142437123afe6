// Passes for all teams.
ghost use Rattle.std.specs.Prelude.{◌≡◌, ◌+◌, ◌<◌, ◌≤◌, ◌++◌, ◌∷◌, [], All, OnOk, OnErr, vec_len, vec_capacity, length, map};
ghost use Rattle.day_reader.specs.Said.{IsAnswerable};
ghost use Rattle.team_run.specs.declared.team.Team.{Team};
ghost use Rattle.team_run.specs.Teams.{IsFresh, MayRun};
ghost use Rattle.team_run.specs.Runs.{asked, IsReady, HasGiven, HasOpened};

use crate::NoMemory;
use crate::team::Team;
use day_reader::{Script, Scripts};
use shard_office::{Clerk, Office};
use std::alloc::Global;

/// Makes a pass for each script, up to the first for which memory is wanted.
pub(crate) fn open_all(
    alloc: Global,
    office: &Office,
    clerk: &mut Clerk,
    mut scripts: Scripts,
    teams: &mut Vec<Team>,
) -> Result<(), NoMemory>
    requires office { clerk.old.desk.office ≡ office.now }
    requires fresh { IsFresh clerk.old }
    requires scripts { MayRun office.now.candidates scripts }
    requires none { teams.old.items ≡ [] }
    requires room { vec_len teams.old + length scripts ≤ vec_capacity teams.old }
    ensures opened { HasOpened office.now clerk.old scripts clerk.new teams.new.items }
    ensures all { OnOk result (map asked teams.new.items ≡ scripts) }
{
    scripts.reverse();
    'scripts: while let Some(script) = scripts.pop() {
        open_one(alloc, office, clerk, script, teams)?;
    }
    Ok(())
}

/// Makes a pass for a script.
fn open_one(
    alloc: Global,
    office: &Office,
    clerk: &mut Clerk,
    script: Script,
    teams: &mut Vec<Team>,
) -> Result<(), NoMemory>
    requires office { clerk.old.desk.office ≡ office.now }
    requires number { clerk.old.last_caller < script.team }
    requires answerable { All (IsAnswerable office.now.candidates) script.calls }
    requires room { vec_len teams.old < vec_capacity teams.old }
    ensures len { OnOk result (vec_len teams.new ≡ vec_len teams.old + 1) }
    ensures capacity { vec_capacity teams.new ≡ vec_capacity teams.old }
    ensures clerk { OnOk result (HasGiven script.team clerk.old clerk.new) }
    ensures team { OnOk result ((team : Team) × (teams.new.items ≡ teams.old.items ++ team ∷ []) × IsReady office.now team × (asked team ≡ script)) }
    ensures refused { OnErr result ((clerk.new ≡ clerk.old) × (teams.new.items ≡ teams.old.items)) }
{
    let pass = clerk.team(alloc, office, script.team)?;
    teams.push_reserved(Team {
        pass,
        left: script.calls,
        versions: Vec::new(alloc),
        refused: false,
    });
    Ok(())
}
