// Runs that are held at a gate, lanes before their work and teams in the turns of their shards, and how often they pass it.
use crate::runs::run_into;
use crate::same::same;
use byte_edge::{CountSink, Gate, Place};
use meek_cli::Status;
use std::alloc::Global;
use std::process::Abort;
use std::sync::Wait;
use std::sync::atomic::{AtomicBool, AtomicU64, Ordering};
use std::test::Fail;
use std::thread::{Threads, yield_now};

/// Holds each lane, or each team in the turn of a shard, until the sum of all that have passed is at least `all`, or for
/// so many looks, and notes that somebody has looked in vain. The first lane or shard counts as 1, the second as a hundred,
/// the third as ten thousand, the fourth as a million, and each other one as a hundred millions.
#[derive(Drop)]
struct MeetingGate {
    of_lanes: bool,
    looks: u32,
    all: u64,
    passed: AtomicU64,
    missed: AtomicBool,
}

impl Gate for MeetingGate {
    fn pass(&self, place: Place) {
        let number = match place {
            Place::Lane(number) if self.of_lanes => number,
            Place::InTurn(number) if !self.of_lanes => number,
            _ => return,
        };
        let worth = match number {
            1 => 1,
            2 => 100,
            3 => 10_000,
            4 => 1_000_000,
            _ => 100_000_000,
        };
        self.passed.fetch_add(worth, Ordering::SeqCst);
        for _ in 0..self.looks {
            if self.passed.load(Ordering::SeqCst) >= self.all {
                return;
            }
            yield_now();
        }
        self.missed.store(true, Ordering::SeqCst);
    }
}

/// A run of these words over this input ends well, and so much has passed the gate; or somebody has looked in vain.
fn passes<R: Threads + Wait + Abort + Sync>(
    rt: &R,
    alloc: Global,
    run: (&str, &[u8]),
    (of_lanes, looks, all): (bool, u32, u64),
    due: (u64, bool),
) -> Result<(), Fail> {
    let gate = MeetingGate {
        of_lanes,
        looks,
        all,
        passed: AtomicU64::new(0),
        missed: AtomicBool::new(false),
    };
    let status = run_into(rt, alloc, run, &mut CountSink::new(), &gate)?.status;
    let passed = gate.passed.load(Ordering::SeqCst);
    let missed = gate.missed.load(Ordering::SeqCst);
    same(rt, (status, (passed, missed)), (Status::Done, due));
    Ok(())
}

/// How often one looks for the others at most where they come, and where they don't.
const MANY: u32 = 50_000_000;

const FEW: u32 = 500_000;

/// Adds a line for each ranking of three of 32 candidates that begins with this one.
fn add_rankings(alloc: Global, text: &mut Vec<u8>, first: u32) -> Result<(), Fail> {
    for second in 1..33 {
        for third in 1..33 {
            if first != second && second != third && third != first {
                let line = format!(in alloc; "1 {first} {second} {third} 0\n")?;
                text.extend_from_slice(line.as_bytes())?;
            }
        }
    }
    Ok(())
}

/// A text with the lines of 99,760 ballots in it: 70,000 that rank candidates 1 and 2, and one for each ranking of three of
/// 32 candidates. Their beginnings are more than 25,000, so that lanes have threads of their own.
///
/// For two seats candidate 1 is elected in the first iteration. In the second the votes stand, and keep values change. In the
/// third candidate 2 has what 1 doesn't keep, more than half of the 70,000 votes, and is elected: two distributions.
fn with_ballots(alloc: Global, before: &[u8], after: &[u8]) -> Result<Vec<u8>, Fail> {
    let mut text = before.to_vec(alloc)?;
    text.extend_from_slice(b"70000 1 2 0\n")?;
    for first in 1..33 {
        add_rankings(alloc, &mut text, first)?;
    }
    text.extend_from_slice(after)?;
    Ok(text)
}

// The words of a run, what is before its ballots and after them, and what passes the gate in a distribution. The sheet of
// a freeze is counted in lanes too.
const LANES: [(&str, &[u8], &[u8], u64); 3] = [
    (
        "count --shards 2 --workers 2 --lots 1,2,3,4,5,6,7,8,9,10,11,12,13,14,15,16,17,18,19,20,21,22,23,24,25,26,27,28,29,30,31,32",
        b"32 2\n",
        b"0 \"A\" \"A\" \"A\" \"A\" \"A\" \"A\" \"A\" \"A\" \"A\" \"A\" \"A\" \"A\" \"A\" \"A\" \"A\" \"A\" \"A\" \"A\" \"A\" \"A\" \"A\" \"A\" \"A\" \"A\" \"A\" \"A\" \"A\" \"A\" \"A\" \"A\" \"A\" \"A\" \"T\"\n",
        101,
    ),
    (
        "count --shards 3 --workers 4 --lots 1,2,3,4,5,6,7,8,9,10,11,12,13,14,15,16,17,18,19,20,21,22,23,24,25,26,27,28,29,30,31,32",
        b"32 2\n",
        b"0 \"A\" \"A\" \"A\" \"A\" \"A\" \"A\" \"A\" \"A\" \"A\" \"A\" \"A\" \"A\" \"A\" \"A\" \"A\" \"A\" \"A\" \"A\" \"A\" \"A\" \"A\" \"A\" \"A\" \"A\" \"A\" \"A\" \"A\" \"A\" \"A\" \"A\" \"A\" \"A\" \"T\"\n",
        1_010_101,
    ),
    (
        "day --shards 2 --workers 2",
        b"32 2\n0 \"A\" \"A\" \"A\" \"A\" \"A\" \"A\" \"A\" \"A\" \"A\" \"A\" \"A\" \"A\" \"A\" \"A\" \"A\" \"A\" \"A\" \"A\" \"A\" \"A\" \"A\" \"A\" \"A\" \"A\" \"A\" \"A\" \"A\" \"A\" \"A\" \"A\" \"A\" \"A\" \"T\"\nlots 1 2 3 4 5 6 7 8 9 10 11 12 13 14 15 16 17 18 19 20 21 22 23 24 25 26 27 28 29 30 31 32 0\nteam 1\nenter 1\n",
        b"0\nend\n",
        101,
    ),
];

// Lanes that ran one after another would not meet in the first distribution.
#[test]
fn lanes_meet_and_pass_once_a_distribution(rt: HostRuntime) -> Result<(), Fail> {
    for (words, before, after, all) in LANES.iter() {
        let text = with_ballots(rt.alloc(), *before, *after)?;
        let run = (*words, text.as_slice());
        passes(&rt, rt.alloc(), run, (true, MANY, *all), (2 * *all, false))?;
    }
    Ok(())
}

/// Each of sixteen teams enters a batch of its own.
const SIXTEEN: &[u8] =
    b"2 1 0 \"A\" \"B\" \"T\" lots 1 2 0\nteam 1 enter 1 0\nteam 2 enter 2 0\nteam 3 enter 3 0\nteam 4 enter 4 0\nteam 5 enter 5 0\nteam 6 enter 6 0\nteam 7 enter 7 0\nteam 8 enter 8 0\nteam 9 enter 9 0\nteam 10 enter 10 0\nteam 11 enter 11 0\nteam 12 enter 12 0\nteam 13 enter 13 0\nteam 14 enter 14 0\nteam 15 enter 15 0\nteam 16 enter 16 0\nend\n";

/// Two teams enter a batch each.
const TWO: &[u8] = b"2 1 0 \"A\" \"B\" \"T\" lots 1 2 0\nteam 1 enter 1 0\nteam 2 enter 2 0\nend\n";

/// Of three shards batches 1, 4 and 7 are of the first, 2 and 5 of the second, 3 and 6 of the third.
const BATCHES: &[u8] =
    b"2 1 0 \"A\" \"B\" \"T\" lots 2 1 0\nteam 1 enter 7 0 enter 2 0\nteam 3 enter 5 0 enter 6 0\nend\n";

// The words of a day, its text, how often one looks for the others, what they all pass, what passes at last, and whether
// somebody looked in vain. Teams that called one after another would never meet, and neither would sixteen shards with fewer
// turns. Of one shard nobody is met: if the gate were passed before the turn is taken, or after it was given back, two callers
// would meet. The made day of 1 enters the batches from 1 to 4, and corrects batch 3.
const TURNS: [(&str, &[u8], u32, u64, (u64, bool)); 4] = [
    (
        "day --shards 16",
        SIXTEEN,
        MANY,
        1_201_010_101,
        (1_201_010_101, false),
    ),
    ("day --shards 1", TWO, FEW, 2, (2, true)),
    ("day --shards 3", BATCHES, FEW, 0, (10_201, false)),
    ("trial 1 --shards 3", b"", FEW, 0, (20_102, false)),
];

#[test]
fn teams_are_in_the_turns_of_the_shards_that_the_words_say(rt: HostRuntime) -> Result<(), Fail> {
    for (words, text, looks, all, due) in TURNS.iter() {
        passes(
            &rt,
            rt.alloc(),
            (*words, *text),
            (false, *looks, *all),
            *due,
        )?;
    }
    Ok(())
}
