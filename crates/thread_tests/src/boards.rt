// A board: a scribe publishes, and watchers read.
ghost use Rattle.std.specs.Prelude.{◌≡◌, []};

use crate::same::same;
use std::alloc::Global;
use std::sync::Wait;
use std::sync::atomic::{AtomicBool, Ordering};
use std::test::Fail;
use std::thread;
use std::thread::Threads;
use tally_board::{Move, Note, Scribe, Totals, Watcher, open_board};

/// So many moves are published beside the watchers.
const MANY: u64 = 1_000;

/// How often a watcher reads at most.
const LOOKS: u32 = 50_000_000;

// One ballot more for candidate 1, as long as there are fewer than so many.
fn publish_one<R: Wait>(rt: &R, scribe: &mut Scribe) -> bool
    requires { scribe.old.pending ≡ [] }
    ensures board { scribe.new.board ≡ scribe.old.board }
    ensures pending { scribe.new.pending ≡ [] }
{
    let totals = scribe.totals();
    if totals.len() == 0 || *totals.get(0) >= MANY {
        return false;
    }
    let step = Move {
        candidate: 1,
        ballots: 1,
        comes: true,
    };
    let added = scribe.append(step).is_ok();
    scribe.publish(rt);
    added
}

// Publishes all moves, one by one, and then says so. It gives two notes of all.
fn publish_all<R: Wait>(rt: &R, scribe: &mut Scribe, published: &AtomicBool) -> (bool, Note, Note)
    requires { scribe.old.pending ≡ [] }
    ensures one { result.1.board ≡ scribe.old.board }
    ensures other { result.2.board ≡ scribe.old.board }
{
    let mut fine = true;
    for _ in 0..MANY {
        fine = publish_one(rt, scribe) && fine;
    }
    published.store(true, Ordering::SeqCst);
    (fine, scribe.publish(rt), scribe.publish(rt))
}

// Reads until a read began after all was published: the last total, and how many reads were refused or went back.
fn read_all(alloc: Global, mut watcher: Watcher, published: &AtomicBool) -> (Watcher, (u64, u32))
    requires { watcher.candidates ≡ 2 }
    ensures board { result.0.board ≡ watcher.board }
    ensures candidates { result.0.candidates ≡ 2 }
{
    let Ok(mut totals) = Totals::filled(alloc, 2, 0) else {
        return (watcher, (0, 1));
    };
    let mut last = 0;
    let mut wrong = 0u32;
    for _ in 0..LOOKS {
        let is_last = published.load(Ordering::SeqCst);
        let is_read = watcher.read(&mut totals).is_ok();
        let total = *totals.get(0);
        if !is_read || total < last {
            wrong = wrong.wrapping_add(1);
        }
        last = total;
        if is_last {
            break;
        }
    }
    (watcher, (last, wrong))
}

// Two watchers read, in a thread each.
fn read_beside<R: Threads>(
    rt: &R,
    alloc: Global,
    one: Watcher,
    other: Watcher,
    published: &AtomicBool,
) -> ((Watcher, (u64, u32)), (Watcher, (u64, u32)))
    requires one { one.candidates ≡ 2 }
    requires other { other.candidates ≡ 2 }
    ensures one { (result.0.0.board ≡ one.board) × (result.0.0.candidates ≡ 2) }
    ensures other { (result.1.0.board ≡ other.board) × (result.1.0.candidates ≡ 2) }
{
    thread::join(
        rt,
        || read_all(alloc, one, published),
        || read_all(alloc, other, published),
    )
}

// What a watcher reads once it has learnt a note.
fn read_noted(alloc: Global, mut watcher: Watcher, note: Note) -> (u64, u32)
    requires board { note.board ≡ watcher.board }
    requires candidates { watcher.candidates ≡ 2 }
{
    watcher.learn(note);
    let (_, seen) = read_all(alloc, watcher, &AtomicBool::new(true));
    seen
}

// A scribe publishes beside two watchers, and each reads once more when it has learnt a note of all moves.
fn race<R: Threads + Wait + Sync>(
    rt: &R,
    alloc: Global,
    scribe: &mut Scribe,
    one: Watcher,
    other: Watcher,
) -> (bool, [(u64, u32); 4])
    requires scribe { scribe.old.pending ≡ [] }
    requires one { (one.candidates ≡ 2) × (one.board ≡ scribe.old.board) }
    requires other { (other.candidates ≡ 2) × (other.board ≡ scribe.old.board) }
{
    let published = AtomicBool::new(false);
    let flag = &published;
    let ((one, other), (fine, note, again)) = thread::join(
        rt,
        || read_beside(rt, alloc, one, other, flag),
        || publish_all(rt, scribe, flag),
    );
    let (one, first) = one;
    let (other, second) = other;
    let third = read_noted(alloc, one, note);
    let fourth = read_noted(alloc, other, again);
    (fine, [first, second, third, fourth])
}

#[test]
fn reads_beside_a_scribe_never_go_back(rt: HostRuntime) -> Result<(), Fail> {
    let (mut scribe, mut watchers) = open_board(&rt, rt.alloc(), 2, 2)?;
    let seen = match (watchers.pop(), watchers.pop()) {
        (Some(one), Some(other)) => race(&rt, rt.alloc(), &mut scribe, one, other),
        _ => (false, [(0, 0); 4]),
    };
    scribe.close(&rt);
    same(&rt, seen, (true, [(1_000, 0); 4]));
    Ok(())
}
