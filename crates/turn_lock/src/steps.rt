//! What each step on a lock tells the seat that makes it. These types are for the proofs: none
//! of them has a value.
use crate::kept::Kept;
use crate::view::View;
use atomic_table::{Join, Play, Split};
use std::marker::PhantomData;

/// A try to gain the turn.
pub struct Try<T> {
    marker: PhantomData<T>,
}

impl<T: Kept> Play<Option<T>, View<T::Entry, T::Name>> for Try<T> {
    ghost use Rattle.turn_lock.specs.Steps.{Tries};

    ghost then = { Tries T.entries T.owner T.name };
}

/// The turn is given back, with the entries as they were.
pub struct GiveBack<T> {
    marker: PhantomData<T>,
}

impl<T: Kept> Play<Option<T>, View<T::Entry, T::Name>> for GiveBack<T> {
    ghost use Rattle.turn_lock.specs.Steps.{GivesBack};

    ghost then = { GivesBack T.entries T.owner T.name };
}

/// The turn is given back, with one entry more.
pub struct GiveWith<T> {
    marker: PhantomData<T>,
}

impl<T: Kept> Play<Option<T>, View<T::Entry, T::Name>> for GiveWith<T> {
    ghost use Rattle.turn_lock.specs.Steps.{GivesWith};

    ghost then = { GivesWith T.entries T.owner T.name };
}

/// The first seat learns the number that it gives next.
pub struct Number<T> {
    marker: PhantomData<T>,
}

impl<T: Kept> Play<Option<T>, View<T::Entry, T::Name>> for Number<T> {
    ghost use Rattle.turn_lock.specs.Steps.{TakesNumber};

    ghost then = { TakesNumber T.entries T.owner T.name };
}

/// The first seat learns that what a seat had seen begins what it has seen itself.
pub struct Learn<T> {
    marker: PhantomData<T>,
}

impl<T: Kept> Play<Option<T>, View<T::Entry, T::Name>> for Learn<T> {
    ghost use Rattle.turn_lock.specs.Steps.{Learns};

    ghost then = { Learns T.entries T.owner T.name };
}

/// The first seat makes a new one.
pub struct Begin<T> {
    marker: PhantomData<T>,
}

impl<T: Kept> Split<View<T::Entry, T::Name>> for Begin<T> {
    ghost use Rattle.turn_lock.specs.Steps.{after_split, newcomer_of};

    ghost left = { after_split };

    ghost right = { newcomer_of };
}

/// The first seat takes in another.
pub struct TakeIn<T> {
    marker: PhantomData<T>,
}

impl<T: Kept> Join<View<T::Entry, T::Name>> for TakeIn<T> {
    ghost use Rattle.turn_lock.specs.Steps.{after_join};
    ghost use Rattle.turn_lock.specs.Turns.{spent};

    ghost both = { after_join };

    ghost spent = { spent };
}
