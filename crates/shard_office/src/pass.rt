// A caller at an office.
ghost use Rattle.std.specs.Prelude.{◌≡◌};
ghost use Rattle.shard_office.specs.Passes.{HasSeenItsOwn};

use crate::desk::Desk;
use std::marker::Model;

/// A caller at an office. Contracts see the office, the caller's number, its sight, which is the marks
/// and the entries of each shard that it has seen, and of these the ones that it made itself. Its own
/// calls are the caller's in the history that its sight shows.
#[derive(Drop)]
pub struct Pass {
    pub(crate) desk: Desk,
}

impl Model for Pass {
    ghost use Rattle.shard_office.specs.Passes.{PassState};
    ghost use Rattle.shard_office.specs.Desks.{pass_at, IsSeated};

    ghost Value = { PassState };

    ghost view = { λ p. pass_at p.desk };

    ghost invariant = { λ p. IsSeated p.desk };
}

impl Pass {
    /// The caller's number. The pass has seen all that this caller made, and the mark of each entry.
    pub fn caller(&self) -> u32
        ensures caller { result ≡ self.now.caller }
        ensures own { HasSeenItsOwn self.now }
    {
        self.desk.caller
    }
}
