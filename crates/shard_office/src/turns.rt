// The turns of shards that one caller holds together: those of shards 1 to k, in a list of k values.
ghost use Rattle.std.specs.Prelude.{◌≡◌, ◌≢◌, ◌+◌, ◌<◌, ◌≤◌, ℕ, Some, slice_get, vec_len, vec_capacity};
ghost use Rattle.shard_office.specs.Passes.{ShardSeat};
ghost use Rattle.shard_office.specs.Values.{SeenShard};
ghost use Rattle.shard_office.specs.Office.{ties_at};
ghost use Rattle.shard_office.specs.declared.window.Window.{Window};
ghost use Rattle.shard_office.specs.Turned.{AreOf, AreTied, Took, GaveBack, IsHeld, AreHeld, TookTurns, GaveTurns, IsAgreed, AreAgreed};

use crate::entering::agree;
use crate::register_value::RegisterValue;
use crate::shard_value::ShardValue;
use crate::window::Window;
use std::sync::Wait;
use turn_lock::{Held, Seat};

/// Takes the turn of one shard more.
fn take_next<R: Wait>(
    rt: &R,
    windows: &Vec<Window>,
    seats: &mut Vec<Seat<ShardValue>>,
    held: &mut Vec<Held<ShardValue>>,
)
    requires at { (vec_len held.old < vec_len windows.now) × (vec_len seats.old ≡ vec_len windows.now) }
    requires room { vec_len held.old < vec_capacity held.old }
    requires own { AreOf windows.now.items seats.old.items }
    requires held { AreHeld held.old.items seats.old.items }
    ensures len { (vec_len held.new ≡ vec_len held.old + 1) × (vec_len seats.new ≡ vec_len seats.old) × (vec_capacity held.new ≡ vec_capacity held.old) }
    ensures own { AreOf windows.now.items seats.new.items }
    ensures held { AreHeld held.new.items seats.new.items }
    ensures taken { (x y : ShardSeat) → slice_get seats.old.items (vec_len held.old) ≡ Some x → slice_get seats.new.items (vec_len held.old) ≡ Some y → Took x y }
    ensures others { (i : ℕ) → i ≢ vec_len held.old → slice_get seats.new.items i ≡ slice_get seats.old.items i }
{
    let i = held.len();
    let value = windows[i].lock.take(rt, &mut seats[i]);
    held.push_reserved(value);
}

/// Takes the turns of all shards, in rising order.
pub(crate) fn take_all<R: Wait>(
    rt: &R,
    windows: &Vec<Window>,
    seats: &mut Vec<Seat<ShardValue>>,
    held: &mut Vec<Held<ShardValue>>,
)
    requires at { (vec_len held.old ≡ 0) × (vec_len seats.old ≡ vec_len windows.now) }
    requires room { vec_len windows.now ≤ vec_capacity held.old }
    requires own { AreOf windows.now.items seats.old.items }
    ensures len { (vec_len held.new ≡ vec_len windows.now) × (vec_len seats.new ≡ vec_len seats.old) }
    ensures own { AreOf windows.now.items seats.new.items }
    ensures held { AreHeld held.new.items seats.new.items }
    ensures taken { TookTurns (vec_len windows.now) seats.old.items seats.new.items }
{
    for _ in 0..windows.len() {
        take_next(rt, windows, seats, held);
    }
}

/// Gives the turn of one shard back.
fn give(windows: &Vec<Window>, seats: &mut Vec<Seat<ShardValue>>, i: usize, value: Held<ShardValue>)
    requires at { (i < vec_len windows.now) × (vec_len seats.old ≡ vec_len windows.now) }
    requires own { AreOf windows.now.items seats.old.items }
    requires held { (s : ShardSeat) → slice_get seats.old.items i ≡ Some s → IsHeld value s }
    ensures len { vec_len seats.new ≡ vec_len seats.old }
    ensures own { AreOf windows.now.items seats.new.items }
    ensures given { (x y : ShardSeat) → slice_get seats.old.items i ≡ Some x → slice_get seats.new.items i ≡ Some y → GaveBack x y }
    ensures others { (k : ℕ) → k ≢ i → slice_get seats.new.items k ≡ slice_get seats.old.items k }
{
    windows[i].lock.give_back(&mut seats[i], value);
}

/// Gives all turns back, the last one first.
pub(crate) fn give_all(
    windows: &Vec<Window>,
    seats: &mut Vec<Seat<ShardValue>>,
    mut held: Vec<Held<ShardValue>>,
)
    requires len { (vec_len held ≡ vec_len windows.now) × (vec_len seats.old ≡ vec_len windows.now) }
    requires own { AreOf windows.now.items seats.old.items }
    requires held { AreHeld held.items seats.old.items }
    ensures len { vec_len seats.new ≡ vec_len seats.old }
    ensures given { GaveTurns 0 seats.old.items seats.new.items }
{
    while let Some(value) = held.pop() {
        give(windows, seats, held.len(), value);
    }
}

/// Tells that the shard at a place has as many entries as marks.
fn agree_at(
    windows: &Vec<Window>,
    held: &mut Vec<Held<ShardValue>>,
    kept: &mut Held<RegisterValue>,
    i: usize,
)
    requires at { (i < vec_len held.old) × (i < vec_len windows.now) }
    requires tie { (w : Window) (v : SeenShard) → slice_get windows.now.items i ≡ Some w → slice_get held.old.items i ≡ Some v → v.tie ≡ w.tie }
    requires register_tie { kept.old.ties ≡ ties_at windows.now.items }
    ensures held { (vec_len held.new ≡ vec_len held.old) × (held.new.items ≡ held.old.items) }
    ensures kept { kept.new ≡ kept.old }
    ensures agreed { (v : SeenShard) → slice_get held.old.items i ≡ Some v → IsAgreed kept.old.register.marks i v }
{
    agree(held[i].value_mut(), kept.value_mut(), &windows[i].tie, i);
}

/// Tells that each shard has as many entries as marks.
pub(crate) fn agree_all(
    windows: &Vec<Window>,
    held: &mut Vec<Held<ShardValue>>,
    kept: &mut Held<RegisterValue>,
)
    requires len { vec_len windows.now ≡ vec_len held.old }
    requires ties { AreTied windows.now.items held.old.items }
    requires register_ties { kept.old.ties ≡ ties_at windows.now.items }
    ensures held { (vec_len held.new ≡ vec_len held.old) × (held.new.items ≡ held.old.items) }
    ensures kept { kept.new ≡ kept.old }
    ensures agreed { AreAgreed (vec_len held.old) kept.old.register.marks held.old.items }
{
    for i in 0..held.len() {
        agree_at(windows, held, kept, i);
    }
}
