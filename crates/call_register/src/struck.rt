// Who is struck so far.
ghost use Rattle.std.specs.Prelude.{◌≡◌, ◌+◌, ◌≤◌, [], OnOk};
ghost use Rattle.batch_core.specs.Book.{strike, strike_reply};

use crate::NoMemory;
use batch_core::Reply;
use std::alloc::Global;
use std::marker::Model;

/// The struck candidates, each once, in the order of their first strikes, and how many more there is
/// room for.
#[derive(Drop)]
pub(crate) struct Struck {
    list: Vec<u32>,
}

impl Model for Struck {
    ghost use Rattle.std.specs.Prelude.{◌-◌, vec_len, vec_capacity};
    ghost use Rattle.call_register.specs.Marks.{StruckList};

    ghost Value = { StruckList };

    ghost view = { λ s. record { candidates = s.list.items; spare = vec_capacity s.list - vec_len s.list } };
}

impl Struck {
    pub(crate) fn new(alloc: Global) -> Struck
        ensures { result.candidates ≡ [] }
    {
        Struck {
            list: Vec::new(alloc),
        }
    }

    /// Makes room for so many more candidates.
    pub(crate) fn reserve(&mut self, more: usize) -> Result<(), NoMemory>
        ensures candidates { self.new.candidates ≡ self.old.candidates }
        ensures room { OnOk result (more ≤ self.new.spare) }
    {
        match self.list.reserve(more) {
            Ok(()) => Ok(()),
            Err(_) => Err(NoMemory),
        }
    }

    /// The reply to a strike of this candidate.
    pub(crate) fn reply(&self, candidate: u32) -> Reply
        ensures { result ≡ strike_reply self.now.candidates candidate }
    {
        if self.list.contains(&candidate) {
            Reply::AlreadyStruck
        } else {
            Reply::Struck
        }
    }

    /// Strikes a candidate, for whom there is room.
    pub(crate) fn strike(&mut self, candidate: u32)
        requires { 1 ≤ self.old.spare }
        ensures candidates { self.new.candidates ≡ strike self.old.candidates candidate }
        ensures spare { self.old.spare ≤ self.new.spare + 1 }
    {
        if !self.list.contains(&candidate) {
            self.list.push_reserved(candidate);
        }
    }

    pub(crate) fn candidates(&self) -> &[u32]
        ensures { result.now ≡ self.now.candidates }
    {
        self.list.as_slice()
    }
}
