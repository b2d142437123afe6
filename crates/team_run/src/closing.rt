// All teams taken in.
ghost use Rattle.std.specs.Prelude.{◌≡◌, ◌+◌, ◌++◌, ◌∷◌, [], true, false, All, IfOk, OnOk, length};
ghost use Rattle.std.specs.List.{flat_map};
ghost use Rattle.team_run.specs.Teams.{IsSameClerk};
ghost use Rattle.team_run.specs.Runs.{passes_of, versions_of};

use crate::NoMemory;
use crate::team::Team;
use shard_office::{Clerk, Office, Version};
use std::alloc::Global;

/// Takes all teams in, and gives the versions of their freezes, unless memory was wanted.
pub(crate) fn take_all_in(
    alloc: Global,
    office: &Office,
    clerk: &mut Clerk,
    mut teams: Vec<Team>,
) -> Result<Vec<Version>, NoMemory>
    requires office { clerk.old.desk.office ≡ office.now }
    requires teams { All (λ team. team.pass.office ≡ office.now) teams.items }
    requires open_teams { clerk.old.open_teams ≡ length teams.items }
    ensures same { IsSameClerk clerk.old clerk.new }
    ensures taken { clerk.new.taken ≡ clerk.old.taken ++ passes_of teams.items }
    ensures open_teams { clerk.new.open_teams ≡ 0 }
    ensures versions { IfOk result (λ versions. versions.items ≡ flat_map versions_of teams.items) }
    ensures whole { OnOk result (All (λ team. team.refused ≡ false) teams.items) }
{
    let mut versions = Vec::new(alloc);
    let mut whole = true;
    teams.reverse();
    'teams: while let Some(team) = teams.pop() {
        whole = take_one_in(office, clerk, team, &mut versions, whole);
    }
    if whole { Ok(versions) } else { Err(NoMemory) }
}

/// Takes a team in and adds its versions. Tells whether no memory was wanted up to now.
fn take_one_in(
    office: &Office,
    clerk: &mut Clerk,
    team: Team,
    versions: &mut Vec<Version>,
    whole: bool,
) -> bool
    requires office { (clerk.old.desk.office ≡ office.now) × (team.pass.office ≡ office.now) }
    ensures same { IsSameClerk clerk.old clerk.new }
    ensures taken { clerk.new.taken ≡ clerk.old.taken ++ team.pass ∷ [] }
    ensures open_teams { clerk.new.open_teams + 1 ≡ clerk.old.open_teams }
    ensures whole { result ≡ true → (whole ≡ true) × (team.refused ≡ false) × (versions.new.items ≡ versions.old.items ++ team.versions.items) }
{
    let Team {
        pass,
        versions: mut own,
        refused,
        ..
    } = team;
    clerk.take_in(office, pass);
    if !whole || refused {
        return false;
    }
    versions.append(&mut own).is_ok()
}
