//! The value of a lock while one seat has the turn.
ghost use Rattle.std.specs.Prelude.{◌≡◌};
ghost use Rattle.std.specs.Borrow.{Lends, sem};
ghost use Rattle.turn_lock.specs.contracts.held.Held.{the_row};

use std::marker::Model;

/// The value of a lock whose turn a seat has. Contracts see it as the value.
///
/// Where it is dropped, the turn is never given back: its seat has it for good, and every later
/// [`take`](crate::TurnLock::take) at that lock waits without end.
#[derive(Drop)]
pub struct Held<T> {
    pub(crate) inner: T,
}

impl<T> Model for Held<T> {
    ghost use Rattle.std.specs.Prelude.{◌≡◌};

    ghost Value = { T };

    ghost view = { λ h. h.inner };
}

impl<T> Held<T> {
    /// The value, to read.
    pub fn value(&self) -> &T
        ensures { result.now ≡ self.now }
    {
        &self.inner
    }

    /// The value, to change.
    pub fn value_mut(&mut self) -> &mut T
        ensures* writes_back { sem 𝓛 (Lends (the_row T.row) T.row self.entry result (λ w. w)) }
        ensures value { result.now ≡ self.old }
    {
        &mut self.inner
    }
}
