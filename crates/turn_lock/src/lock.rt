//! A value that one seat at a time may have.
ghost use Rattle.std.specs.Prelude.{◌≡◌, ℕ, ◌<◌, true, false, [], ◌∷◌, ◌++◌, Some, None, IfOk, IfErr};
ghost use Rattle.turn_lock.specs.Entries.{Begins, owned_by, owned};
ghost use Rattle.turn_lock.specs.Numbers.{has};
ghost use Rattle.turn_lock.specs.Steps.{Gained};
ghost use Rattle.turn_lock.specs.Sights.{KnowsOwn, AddsOne, first_sight, new_sight, sight_after_split, sight_after_join, given_by};

use crate::held::Held;
use crate::kept::Kept;
use crate::new_back::NewBack;
use crate::rule::Turns;
use crate::seat::{Inner, Seat};
use crate::steps::{Begin, GiveBack, GiveWith, Learn, Number, TakeIn, Try};
use crate::view::View;
use atomic_table::{Refused, Table};
use std::alloc::{AllocFailed, Global};
use std::marker::Model;
use std::snapshot::Snapshot;
use std::sync::Wait;

// The word of the turn, and what it shows.
const TURN: usize = 0;

const FREE: u64 = 0;

const TAKEN: u64 = 1;

// Taken, and others may wait for it.
const AWAITED: u64 = 2;

// The slot of the value.
const VALUE: usize = 0;

/// A value that one seat at a time may have. Contracts see which lock it is.
///
/// It has one word, which shows whether the turn is taken and whether others may wait for it, and
/// one slot, which has the value while the turn is free.
#[derive(Drop)]
pub struct TurnLock<T: Kept> {
    table: Table<Option<T>, View<T::Entry, T::Name>, Snapshot<T>, Turns<T>, Global>,
}

impl<T: Kept> Model for TurnLock<T> {
    ghost use Rattle.std.specs.Prelude.{◌≡◌};
    ghost use Rattle.atomic_table.specs.Seated.{TableId, table_id_coded};

    ghost Value = { TableId };

    ghost coded = { table_id_coded };

    ghost view = { λ t. t.table.shared.table_id };

    ghost invariant = { λ t. (t.table.shared.table_id.words ≡ 1) × (t.table.shared.table_id.slots ≡ 1) };
}

impl<T: Kept> TurnLock<T> {
    /// A lock for a value that has no entries yet, and the lock's first seat, whose number is 0.
    pub fn try_new(alloc: Global, value: T) -> Result<(TurnLock<T>, Seat<T>), NewBack<T>>
        requires { T.entries value ≡ [] }
        ensures first { IfOk result (λ made. made.1 ≡ first_sight made.0 (Some (T.name value))) }
        ensures back { IfErr result (λ back. back.value ≡ value) }
    {
        let about = Snapshot::of(&value);
        let mut slots = Vec::new(alloc);
        if let Err(failed) = slots.push(Some(value)) {
            let AllocFailed { value } = failed;
            slots.destroy_empty();
            return match value {
                Some(value) => Err(NewBack { value }),
                None => unreachable!(),
            };
        }
        match Table::new(alloc, &[FREE], slots, &about) {
            Ok((table, inner)) => Ok((TurnLock { table }, Seat { inner })),
            Err(Refused { mut slots }) => match slots.pop() {
                Some(Some(value)) => {
                    slots.destroy_empty();
                    Err(NewBack { value })
                }
                _ => unreachable!(),
            },
        }
    }

    /// A new seat with this number, made by the first seat. It has seen what the first seat has
    /// seen, and has given nothing.
    pub fn split(&self, seat: &mut Seat<T>, caller: u32) -> Seat<T>
        requires own { seat.old.lock ≡ self.now }
        requires first { (seat.old.is_first ≡ true) × (seat.old.holds ≡ false) }
        requires number { seat.old.given < caller }
        ensures first { seat.new ≡ sight_after_split seat.old caller }
        ensures new { result ≡ new_sight seat.old caller }
        ensures own { KnowsOwn T.owner result }
    {
        let shared = &self.table.shared;
        let number = caller as u64;
        shared.compare_exchange::<Number<T>>(&mut seat.inner, TURN, number, number);
        let inner = shared.split_seat::<Begin<T>>(&mut seat.inner);
        Seat { inner }
    }

    /// The first seat takes in another, whose sight and gifts it then knows. The other's number was
    /// out until then, so no number is taken in twice.
    pub fn join(&self, seat: &mut Seat<T>, other: Seat<T>)
        requires own { (seat.old.lock ≡ self.now) × (other.lock ≡ self.now) }
        requires first { seat.old.is_first ≡ true }
        requires free { (seat.old.holds ≡ false) × (other.holds ≡ false) }
        ensures sight { seat.new ≡ sight_after_join seat.old other }
        ensures begins { Begins seat.old.seen seat.new.seen × Begins other.seen seat.new.seen }
        ensures out { has other.caller seat.old.out ≡ true }
        ensures own { KnowsOwn T.owner seat.new }
    {
        let Seat { inner } = other;
        let shared = &self.table.shared;
        shared.join_seat::<TakeIn<T>>(&mut seat.inner, inner);
        shared.load::<Learn<T>>(&mut seat.inner, TURN);
    }

    /// Waits until the turn is free, and takes it with the value. A thread that waits sleeps.
    ///
    /// The seat has then seen all entries. Nothing is promised of when the turn comes.
    pub fn take<R: Wait>(&self, rt: &R, seat: &mut Seat<T>) -> Held<T>
        requires { seat.old.lock ≡ self.now }
        ensures free { seat.old.holds ≡ false }
        ensures seat { seat.new ≡ record seat.old { holds = true; seen = T.entries result } }
        ensures begins { Begins seat.old.seen (T.entries result) }
        ensures name { seat.old.name ≡ Some (T.name result) }
        ensures own { KnowsOwn T.owner seat.new }
    {
        self.gain(rt, &mut seat.inner);
        let inner = self.taken_out(&mut seat.inner);
        Held { inner }
    }

    /// Gives the turn back, with the value's name and entries as they were.
    pub fn give_back(&self, seat: &mut Seat<T>, held: Held<T>)
        requires own { (seat.old.lock ≡ self.now) × (seat.old.holds ≡ true) }
        requires name { seat.old.name ≡ Some (T.name held) }
        requires entries { T.entries held ≡ seat.old.seen }
        ensures seat { seat.new ≡ record seat.old { holds = false } }
        ensures own { KnowsOwn T.owner seat.new }
    {
        let Held { inner } = held;
        let shared = &self.table.shared;
        self.put_back(&mut seat.inner, inner);
        if shared.swap::<GiveBack<T>>(&mut seat.inner, TURN, FREE) == AWAITED {
            shared.wake_one(TURN);
        }
    }

    /// Gives the turn back, with the value's name as it was and one entry more, which is this
    /// seat's own or nobody's.
    pub fn give_with(&self, seat: &mut Seat<T>, held: Held<T>)
        requires own { (seat.old.lock ≡ self.now) × (seat.old.holds ≡ true) }
        requires name { seat.old.name ≡ Some (T.name held) }
        requires entries { AddsOne T.owner seat.old (T.entries held) }
        ensures seat { seat.new ≡ record seat.old { holds = false; seen = T.entries held; mine = seat.new.mine } }
        ensures mine { (e : T.Entry) → T.entries held ≡ seat.old.seen ++ e ∷ [] → seat.new.mine ≡ seat.old.mine ++ e ∷ [] }
        ensures own { KnowsOwn T.owner seat.new }
    {
        let Held { inner } = held;
        let shared = &self.table.shared;
        self.put_back(&mut seat.inner, inner);
        if shared.swap::<GiveWith<T>>(&mut seat.inner, TURN, FREE) == AWAITED {
            shared.wake_one(TURN);
        }
    }

    /// Ends the lock and gives its value, once all seats but the first were taken in.
    pub fn close(self, seat: Seat<T>) -> T
        requires own { seat.lock ≡ self }
        requires alone { (seat.is_first ≡ true) × (seat.holds ≡ false) × (seat.out ≡ []) }
        ensures begins { Begins seat.seen (T.entries result) }
        ensures name { seat.name ≡ Some (T.name result) }
        ensures given { (p : ℕ) → owned_by T.owner p (T.entries result) ≡ owned T.owner (given_by seat p) }
    {
        let Seat { inner } = seat;
        let mut closed = self.table.close_with(inner);
        match closed.take(VALUE) {
            Some(value) => {
                closed.free();
                value
            }
            None => unreachable!(),
        }
    }

    // Gains the turn, at once where it is free. A seat that waits leaves the word at AWAITED, also
    // once it has the turn, since others may wait still.
    fn gain<R: Wait>(&self, rt: &R, seat: &mut Inner<T>)
        requires own { seat.old.table_id ≡ self.now }
        requires lives { seat.old.me.0.lives ≡ true }
        ensures own { seat.new.table_id ≡ seat.old.table_id }
        ensures gained { Gained T.entries T.owner T.name seat.old.me seat.new.me }
    {
        let shared = &self.table.shared;
        if shared.compare_exchange::<Try<T>>(seat, TURN, FREE, TAKEN) == FREE {
            return;
        }
        for _ in rt.forever() {
            if shared.swap::<Try<T>>(seat, TURN, AWAITED) == FREE {
                return;
            }
            shared.park(rt, TURN, AWAITED as u32);
        }
        unreachable!()
    }

    // Takes the value out of its slot.
    fn taken_out(&self, seat: &mut Inner<T>) -> T
        requires own { seat.old.table_id ≡ self.now }
        requires full { (value : T) × (seat.old.me.1 ≡ (0, Some value) ∷ []) }
        ensures own { seat.new.table_id ≡ seat.old.table_id }
        ensures value { seat.old.me.1 ≡ (0, Some result) ∷ [] }
        ensures empty { seat.new.me ≡ (seat.old.me.0, (0, None) ∷ []) }
    {
        match self.table.shared.exchange(seat, VALUE, None) {
            Some(value) => value,
            None => unreachable!(),
        }
    }

    // Puts the value back into its slot.
    fn put_back(&self, seat: &mut Inner<T>, value: T)
        requires own { seat.old.table_id ≡ self.now }
        requires empty { seat.old.me.1 ≡ (0, None) ∷ [] }
        ensures own { seat.new.table_id ≡ seat.old.table_id }
        ensures full { seat.new.me ≡ (seat.old.me.0, (0, Some value) ∷ []) }
    {
        match self.table.shared.exchange(seat, VALUE, Some(value)) {
            None => {}
            Some(_) => unreachable!(),
        }
    }
}
