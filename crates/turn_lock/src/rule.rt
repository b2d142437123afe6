//! The rule of a lock. This type is for the proofs: it has no value.
use crate::kept::Kept;
use crate::view::View;
use atomic_table::TableRule;
use std::marker::PhantomData;
use std::snapshot::Snapshot;

/// One seat at a time has the turn, and what each seat has seen begins the value's entries.
pub struct Turns<T> {
    marker: PhantomData<T>,
}

impl<T: Kept> TableRule<Option<T>, View<T::Entry, T::Name>, Snapshot<T>> for Turns<T> {
    ghost use Rattle.std.specs.Prelude.{Some};
    ghost use Rattle.turn_lock.specs.Turns.{IsKept, opener};

    ghost holds = { λ key. IsKept T.entries T.owner T.name (T.name key.value) };

    ghost first = { λ key. opener (Some (T.name key.value)) };
}
