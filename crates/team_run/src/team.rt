// A team at work.
ghost use Rattle.std.specs.Prelude.{◌≡◌, ◌++◌, ◌∷◌, [], OnOk, OnErr};
ghost use Rattle.day_reader.specs.Said.{IsAnswerable};
ghost use Rattle.shard_office.specs.Passes.{own};
ghost use Rattle.day_lines.specs.DayHistory.{calls_of};
ghost use Rattle.team_run.specs.Teams.{HasBegun};
ghost use Rattle.team_run.specs.Runs.{asked, IsSamePass, IsReady, IsAtWork, HasRun};

use crate::NoMemory;
use crate::calls::{make_change, make_freeze, make_strike};
use batch_core::{Call, Calls};
use byte_edge::Gate;
use shard_office::{Office, Pass, Version, versions_stay};
use std::alloc::Global;
use std::sync::Wait;
use std::thread::Threads;

/// A team at work: its pass, the calls that are left of its script, the versions of its freezes,
/// and whether memory was wanted for a call.
#[derive(Drop)]
pub(crate) struct Team {
    pub(crate) pass: Pass,
    pub(crate) left: Calls,
    pub(crate) versions: Vec<Version>,
    pub(crate) refused: bool,
}

impl Team {
    /// Makes the calls that are left, in their order, up to the first for which memory is wanted.
    pub(crate) fn run<R: Threads + Wait + Sync, G: Gate>(
        &mut self,
        rt: &R,
        alloc: Global,
        office: &Office,
        gate: &G,
    )
        requires { IsReady office.now self.old }
        ensures { HasRun office.now self.old self.new }
    {
        match self.make_all(rt, alloc, office, gate) {
            Ok(()) => {}
            Err(_) => self.refused = true,
        }
    }

    /// Makes calls in their order, up to the first for which memory is wanted.
    fn make_all<R: Threads + Wait + Sync, G: Gate>(
        &mut self,
        rt: &R,
        alloc: Global,
        office: &Office,
        gate: &G,
    ) -> Result<(), NoMemory>
        requires { IsReady office.now self.old }
        ensures office { self.new.pass.office ≡ office.now }
        ensures work { IsAtWork self.new.pass self.new.versions.items }
        ensures begun { HasBegun self.new.pass (asked self.old) }
        ensures whole { OnOk result (calls_of (own self.new.pass) ≡ self.old.left) }
    {
        self.left.reverse();
        'calls: while let Some(call) = self.left.pop() {
            self.make(rt, alloc, office, call, gate)?;
        }
        Ok(())
    }

    /// Makes a call, and keeps the version of a freeze.
    fn make<R: Threads + Wait + Sync, G: Gate>(
        &mut self,
        rt: &R,
        alloc: Global,
        office: &Office,
        asked: Call,
        gate: &G,
    ) -> Result<(), NoMemory>
        requires office { self.old.pass.office ≡ office.now }
        requires answerable { IsAnswerable office.now.candidates asked }
        requires work { IsAtWork self.old.pass self.old.versions.items }
        ensures same { IsSamePass self.old.pass self.new.pass }
        ensures left { self.new.left ≡ self.old.left }
        ensures work { IsAtWork self.new.pass self.new.versions.items }
        ensures made { OnOk result (calls_of (own self.new.pass) ≡ calls_of (own self.old.pass) ++ asked ∷ []) }
        ensures refused { OnErr result (own self.new.pass ≡ own self.old.pass) }
    {
        versions_stay();
        match asked {
            Call::Change(change) => make_change(rt, office, &mut self.pass, change, gate),
            Call::Freeze => make_freeze(rt, alloc, office, &mut self.pass, &mut self.versions),
            Call::Strike(candidate) => make_strike(rt, office, &mut self.pass, candidate),
        }
    }
}
