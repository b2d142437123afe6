// A day of sixteen teams that contend for two batches and strike one candidate, while half of them freeze, played a hundred
// times. By the clauses of meek each text is that of a lawful history; what none says is that it ends, and that the teams
// call at the same time.
use crate::runs::run_into;
use crate::same::same;
use byte_edge::{CountSink, FreeGate};
use meek_cli::Status;
use std::alloc::Global;
use std::process::Abort;
use std::sync::Wait;
use std::test::Fail;
use std::thread::Threads;

fn contended_day(alloc: Global) -> Result<Vec<u8>, Fail> {
    let mut day = b"2 1 0 \"A\" \"B\" \"T\" lots 1 2 0\n".to_vec(alloc)?;
    for team in 1..17u32 {
        let freeze = if team % 2 == 0 { "freeze" } else { "" };
        let calls = format!(in alloc;
            "team {team} enter 1 1 1 0 0 correct 1 1 1 2 0 0 {freeze} strike 2 withdraw 1 2 enter 2 2 1 0 0\n"
        )?;
        day.extend_from_slice(calls.as_bytes())?;
    }
    day.extend_from_slice(b"end\n")?;
    Ok(day)
}

/// How often somebody calls on this day who has not called just before: all teams call, and at last the clerk.
fn turns_of<R: Threads + Wait + Abort + Sync>(
    rt: &R,
    alloc: Global,
    day: &[u8],
) -> Result<u32, Fail> {
    let words = "day --shards 2 --workers 1";
    let ran = run_into(rt, alloc, (words, day), &mut CountSink::new(), &FreeGate)?;
    let entries = ran.history.entries().items();
    same(rt, (ran.status, entries.len()), (Status::Done, 89));
    let mut last = 0;
    let mut turns = 0u32;
    for entry in entries {
        if entry.caller != last {
            turns = turns.wrapping_add(1);
        }
        last = entry.caller;
    }
    Ok(turns)
}

#[test]
fn sixteen_teams_contend_for_two_batches(rt: HostRuntime) -> Result<(), Fail> {
    let day = contended_day(rt.alloc())?;
    let mut mixed = 0u32;
    for _ in 0..100 {
        if turns_of(&rt, rt.alloc(), day.as_slice())? > 17 {
            mixed = mixed.wrapping_add(1);
        }
    }
    assert!(rt;
        mixed > 0,
        "of a hundred days each was played team after team"
    );
    Ok(())
}
