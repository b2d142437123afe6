// The calls that are left of a day's scripts.
ghost use Rattle.std.specs.Prelude.{◌≡◌, ◌≢◌, ◌≤◌, [], ◌++◌, All, IfOk, OnOk, IsTrue, ◌↔◌, MatchOption, length, replicate, reverse, ℕ};
ghost use Rattle.batch_core.specs.declared.limits.TheConstants.{MOST_TEAMS};
ghost use Rattle.day_lines.specs.DayHistory.{calls_in};
ghost use Rattle.day_replay.specs.Calls.{IsTaken, left_of};

use crate::NoMemory;
use batch_core::{Call, Calls, MOST_TEAMS};
use day_reader::Scripts;
use std::alloc::Global;

/// The calls that each team has still to make, those of team t at index t - 1. Each list stands from its
/// end, so that the next call is the last.
#[derive(Drop)]
pub(crate) struct Left {
    pub(crate) teams: Vec<Calls>,
}

impl Left {
    /// All calls of these scripts.
    pub fn of(alloc: Global, mut scripts: Scripts) -> Result<Left, NoMemory>
        requires { All (λ script. (1 ≤ script.team) × (script.team ≤ MOST_TEAMS)) scripts }
        ensures teams { IfOk result (λ left. length left.teams.items ≡ MOST_TEAMS) }
        ensures calls { IfOk result (λ left. (team : ℕ) → 1 ≤ team → left_of left.teams.items team ≡ calls_in scripts team) }
    {
        let mut teams = no_calls(alloc)?;
        'scripts: while let Some(script) = scripts.pop() {
            put_behind(&mut teams[script.team as usize - 1], script.calls)?;
        }
        Ok(Left { teams })
    }

    /// Whether a team has calls left.
    pub fn has(&self, team: u32) -> bool
        requires teams { length self.now.teams.items ≡ MOST_TEAMS }
        requires team { (1 ≤ team) × (team ≤ MOST_TEAMS) }
        ensures { IsTrue result ↔ (1 ≤ length (left_of self.now.teams.items team)) }
    {
        self.teams[team as usize - 1].len() > 0
    }

    /// The first team that has calls left.
    pub fn first(&self) -> Option<u32>
        requires { length self.now.teams.items ≡ MOST_TEAMS }
        ensures { MatchOption result
            ((team : ℕ) → 1 ≤ team → left_of self.now.teams.items team ≡ [])
            (λ team. (1 ≤ team) × (team ≤ MOST_TEAMS) × (1 ≤ length (left_of self.now.teams.items team))) }
    {
        for place in 0..MOST_TEAMS {
            if self.has(place + 1) {
                return Some(place + 1);
            }
        }
        None
    }

    /// Takes the next call of a team that has calls left.
    pub fn take(&mut self, team: u32) -> Call
        requires teams { length self.old.teams.items ≡ MOST_TEAMS }
        requires team { (1 ≤ team) × (team ≤ MOST_TEAMS) }
        requires some { 1 ≤ length (left_of self.old.teams.items team) }
        ensures { IsTaken team result self.old.teams.items self.new.teams.items }
    {
        match self.teams[team as usize - 1].pop() {
            Some(call) => call,
            None => unreachable!(),
        }
    }
}

/// Puts calls after others that stand from their end. Where there are none, the list of the calls is turned round.
fn put_behind(list: &mut Calls, calls: Calls) -> Result<(), NoMemory>
    ensures { OnOk result (reverse list.new ≡ calls ++ reverse list.old) }
{
    if list.len() > 0 {
        return push_behind(list, calls);
    }
    *list = calls;
    list.reverse();
    Ok(())
}

/// Puts calls one by one after others that stand from their end.
fn push_behind(list: &mut Calls, mut calls: Calls) -> Result<(), NoMemory>
    ensures { OnOk result (reverse list.new ≡ calls ++ reverse list.old) }
{
    'calls: while let Some(call) = calls.pop() {
        if list.push(call).is_err() {
            return Err(NoMemory);
        }
    }
    Ok(())
}

/// No calls for each team.
fn no_calls(alloc: Global) -> Result<Vec<Calls>, NoMemory>
    ensures { IfOk result (λ teams. teams.items ≡ replicate MOST_TEAMS []) }
{
    let mut teams = Vec::new(alloc);
    for _ in 0..MOST_TEAMS {
        teams.push(Calls::new(alloc))?;
    }
    Ok(teams)
}
