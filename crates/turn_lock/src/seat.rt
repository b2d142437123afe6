//! A place at one lock.
use crate::kept::Kept;
use crate::view::View;
use std::marker::Model;

/// A place at one lock, from which a thread takes the turn. It has no bytes.
///
/// Contracts see its lock and that lock's name, its caller number, the entries that it has seen,
/// those of them that it gave, and whether it has the turn. Of the first seat of a lock they also
/// see which numbers were given, which of them are out, and what the seats gave that came back.
#[derive(Drop)]
pub struct Seat<T: Kept> {
    pub(crate) inner: Inner<T>,
}

/// A seat at the table that a lock is made of.
pub(crate) type Inner<T> = atomic_table::Seat<
    Option<T>,
    View<<T as Kept>::Entry, <T as Kept>::Name>,
>;

impl<T: Kept> Model for Seat<T> {
    ghost use Rattle.std.specs.Prelude.{◌≡◌, ◌∷◌, true, [], None, if◌then◌else◌};
    ghost use Rattle.turn_lock.specs.Sights.{Sight, sight_of};

    ghost Value = { Sight T.Entry T.Name };

    ghost view = { λ s. sight_of s.inner.table_id s.inner.me.0 };

    ghost invariant = { λ s. (s.inner.me.0.lives ≡ true)
        × (s.inner.me.1 ≡ (if s.inner.me.0.holds then (0, None) ∷ [] else [])) };
}
