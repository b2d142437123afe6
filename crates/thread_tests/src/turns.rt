// Turns of several threads.
ghost use Rattle.std.specs.Prelude.{◌≡◌, ◌<◌, true, false, None, []};

use crate::same::same;
use std::alloc::{AllocError, Global};
use std::process::Abort;
use std::sync::Wait;
use std::sync::atomic::{AtomicU64, Ordering};
use std::test::Fail;
use std::thread;
use std::thread::Threads;
use turn_lock::{Kept, Seat, TurnLock};

/// How many turns of each kind a thread takes.
const MANY: u32 = 10_000;

/// How often a thread looks for the others at most.
const LOOKS: u32 = 50_000_000;

/// Gifts of nobody, with a count of all turns.
#[derive(Drop)]
struct Gifts {
    list: Vec<u8>,
    turns: u32,
}

impl Kept for Gifts {
    type Entry = u8;

    type Name = u32;

    ghost entries = { λ v. v.list.items };

    ghost owner = { λ _. None };

    ghost name = { λ _. 0 };
}

// Takes the turn and gives one more.
fn give<R: Wait>(rt: &R, lock: &TurnLock<Gifts>, seat: &mut Seat<Gifts>) -> Result<(), AllocError>
    requires { seat.old.lock ≡ lock.now }
    ensures lock { seat.new.lock ≡ seat.old.lock }
    ensures free { seat.new.holds ≡ false }
{
    let mut held = lock.take(rt, seat);
    let gifts = held.value_mut();
    gifts.turns = gifts.turns.wrapping_add(1);
    match gifts.list.push(1) {
        Ok(()) => {
            lock.give_with(seat, held);
            Ok(())
        }
        Err(_) => {
            lock.give_back(seat, held);
            Err(AllocError)
        }
    }
}

// Takes the turn and gives nothing.
fn look<R: Wait>(rt: &R, lock: &TurnLock<Gifts>, seat: &mut Seat<Gifts>)
    requires { seat.old.lock ≡ lock.now }
    ensures lock { seat.new.lock ≡ seat.old.lock }
    ensures free { seat.new.holds ≡ false }
{
    let mut held = lock.take(rt, seat);
    let gifts = held.value_mut();
    gifts.turns = gifts.turns.wrapping_add(1);
    lock.give_back(seat, held);
}

// Waits until so many threads have come, so that they take their turns at the same time.
fn meet(came: &AtomicU64, threads: u64) {
    came.fetch_add(1, Ordering::SeqCst);
    for _ in 0..LOOKS {
        if came.load(Ordering::SeqCst) >= threads {
            return;
        }
    }
}

// Takes many turns, in which it gives or looks, or by turns both.
fn take_turns<R: Wait>(
    rt: &R,
    lock: &TurnLock<Gifts>,
    mut seat: Seat<Gifts>,
    gives: bool,
    looks: bool,
)
    requires { seat.lock ≡ lock.now }
{
    for _ in 0..MANY {
        if gives && give(rt, lock, &mut seat).is_err() {
            return;
        }
        if looks {
            look(rt, lock, &mut seat);
        }
    }
}

// How many gifts there are, and how many turns were counted, once so many threads have taken theirs.
fn sums<R: Threads + Wait + Sync + Abort>(
    rt: &R,
    alloc: Global,
    threads: u32,
    gives: bool,
    looks: bool,
) -> Result<(usize, u32), Fail>
    requires { threads < 100 }
{
    let gifts = Gifts {
        list: Vec::new(alloc),
        turns: 0,
    };
    let (lock, mut first) = TurnLock::try_new(alloc, gifts).map_err(|_| AllocError)?;
    let mut reader = lock.split(&mut first, 1);
    let came = AtomicU64::new(0);
    let (shared, meeting) = (&lock, &came);
    thread::scope(
        thread::scope_env(),
        rt,
        move |scope|
            requires { (first.lock ≡ shared.now) × (first.is_first ≡ true) × (first.holds ≡ false) × (first.given ≡ 1) × (threads < 100) }
        {
            for caller in 2..threads + 2 {
                let seat = shared.split(&mut first, caller);
                let started = scope.spawn(
                    move ||
                        requires { seat.lock ≡ shared.now }
                    {
                        meet(meeting, threads as u64);
                        take_turns(rt, shared, seat, gives, looks);
                    },
                );
                assert!(rt; started.is_ok());
            }
        },
    );
    let held = lock.take(rt, &mut reader);
    let sums = (held.value().list.len(), held.value().turns);
    lock.give_back(&mut reader, held);
    Ok(sums)
}

// Where one of the two calls that give the turn back woke nobody, a thread would wait without end where no other call comes:
// so two threads only give, and two only look. Of eight the last would sleep without end if one were woken too few.
#[test]
fn who_waits_for_a_turn_is_woken(rt: HostRuntime) -> Result<(), Fail> {
    same(
        &rt,
        sums(&rt, rt.alloc(), 2, true, false)?,
        (20_000, 20_000),
    );
    same(&rt, sums(&rt, rt.alloc(), 2, false, true)?, (0, 20_000));
    same(
        &rt,
        sums(&rt, rt.alloc(), 8, true, true)?,
        (80_000, 160_000),
    );
    Ok(())
}
