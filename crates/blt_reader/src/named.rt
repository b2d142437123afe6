// Candidates that were named.
ghost use Rattle.std.specs.Prelude.{◌≡◌, ◌<◌, Bool, false, true, length, replicate, slice_index_or, slice_set, IfOk};

use std::alloc::{AllocError, Global};
use std::marker::Model;

/// A mark for each of so many numbers from 0. A number is marked where its stamp is that of the
/// round, so that a new round takes all marks away.
#[derive(Drop)]
pub(crate) struct Named {
    stamps: Vec<u32>,
    round: u32,
}

impl Model for Named {
    ghost use Rattle.std.specs.Prelude.{List, Bool, ◌≤◌, ◌==◌, map, All};

    ghost Value = { List Bool };

    ghost view = { λ n. map (λ stamp. stamp == n.round) n.stamps.items };

    ghost invariant = { λ n. All (λ stamp. stamp ≤ n.round) n.stamps.items };
}

impl Named {
    /// No number is marked.
    pub(crate) fn new(alloc: Global, numbers: usize) -> Result<Named, AllocError>
        ensures { IfOk result (λ named. named ≡ replicate numbers false) }
    {
        let stamps = vec![in alloc; 0; numbers]?;
        Ok(Named { stamps, round: 1 })
    }

    /// Takes all marks away.
    pub(crate) fn clear(&mut self)
        ensures { self.new ≡ replicate (length self.old) false }
    {
        if self.round == u32::MAX {
            self.stamps.fill(0);
            self.round = 0;
        }
        self.round += 1;
    }

    /// Whether a number is marked.
    #[inline(always)]
    pub(crate) fn has(&self, number: usize) -> bool
        requires { number < length self.now }
        ensures { result ≡ slice_index_or self.now number false }
    {
        self.stamps[number] == self.round
    }

    /// Marks a number, and says whether it was marked.
    pub(crate) fn mark(&mut self, number: usize) -> bool
        requires { number < length self.old }
        ensures was { result ≡ slice_index_or self.old number false }
        ensures after { self.new ≡ slice_set self.old number true }
    {
        let was = self.stamps[number] == self.round;
        self.stamps[number] = self.round;
        was
    }
}
