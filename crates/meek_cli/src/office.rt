// The calls of a day, answered at an office that its teams share.
ghost use Rattle.std.specs.Prelude.{◌≡◌, ◌≤◌, IfOk};
ghost use Rattle.plain_ballots.specs.declared.limits.TheConstants.{MOST_CANDIDATES};
ghost use Rattle.day_reader.specs.Said.{AreScripts};
ghost use Rattle.day_lines.specs.DayHistory.{IsHistoryOf};
ghost use Rattle.day_sheets.specs.Frozen.{AreFrozen};

use crate::NoMemory;
use crate::hands::Hands;
use byte_edge::Gate;
use call_register::History;
use day_reader::Scripts;
use shard_office::Office;
use std::sync::Wait;
use std::thread::Threads;
use team_run::{Versions, days_end_with_the_clerk, run_teams, scripts_of_a_day_may_run};

/// Answers the calls of all teams at an office with as many shards and workers as the split says, each
/// team's in a thread of its own, and last the clerk's freeze. Gives the history, and the versions of its
/// freezes by rising place. Where memory is wanted the office is given up.
pub(crate) fn answer_day<R: Threads + Wait + Sync, G: Gate + Sync>(
    hands: &Hands<'_, R, G>,
    candidates: u32,
    scripts: Scripts,
) -> Result<(History, Versions), NoMemory>
    requires candidates { (1 ≤ candidates) × (candidates ≤ MOST_CANDIDATES) }
    requires scripts { AreScripts candidates scripts }
    ensures history { IfOk result (λ day. IsHistoryOf scripts day.0) }
    ensures frozen { IfOk result (λ day. AreFrozen candidates day.0 day.1) }
{
    scripts_of_a_day_may_run();
    days_end_with_the_clerk();
    let (rt, alloc, gate) = (hands.rt, hands.alloc, hands.gate);
    let (shards, workers) = (hands.split.shards(), hands.split.workers());
    let Ok((office, mut clerk)) = Office::try_new(alloc, candidates, shards, workers) else {
        return Err(NoMemory);
    };
    let Ok(mut versions) = run_teams(rt, alloc, &office, &mut clerk, scripts, gate) else {
        return Err(NoMemory);
    };
    let Ok(last) = office.clerk_freeze(rt, alloc, &mut clerk) else {
        return Err(NoMemory);
    };
    let Ok(()) = versions.push(last) else {
        return Err(NoMemory);
    };
    let _all_back = clerk.open_teams();
    match office.close(alloc, clerk) {
        Ok(history) => Ok((history, versions)),
        Err(_) => Err(NoMemory),
    }
}
