// The watchers of a new board.
ghost use Rattle.std.specs.Prelude.{◌≡◌, ◌∷◌, [], ◌++◌, ◌<◌, length, slice_get, MatchOption, IfOk};

use crate::{NoMemory, Watcher};
use std::alloc::Global;
use std::marker::Model;

/// Watchers, one after the other.
#[derive(Drop)]
pub struct Watchers {
    list: Vec<Watcher>,
}

impl Model for Watchers {
    ghost use Rattle.std.specs.Prelude.{List};
    ghost use Rattle.tally_board.specs.Sight.{Sight};

    ghost Value = { List Sight };

    ghost view = { λ w. w.list.items };
}

impl Watchers {
    pub(crate) fn new(alloc: Global) -> Watchers
        ensures { result ≡ [] }
    {
        Watchers {
            list: Vec::new(alloc),
        }
    }

    pub(crate) fn push(&mut self, watcher: Watcher) -> Result<(), NoMemory>
        ensures { IfOk result (λ _. self.new ≡ self.old ++ watcher ∷ []) }
    {
        match self.list.push(watcher) {
            Ok(()) => Ok(()),
            Err(_) => Err(NoMemory),
        }
    }

    pub fn len(&self) -> usize
        ensures { result ≡ length self.now }
    {
        self.list.len()
    }

    pub fn items(&self) -> &[Watcher]
        ensures { result.now ≡ self.now }
    {
        self.list.as_slice()
    }

    pub fn get(&self, i: usize) -> &Watcher
        requires { i < length self.now }
        ensures { slice_get self.now i ≡ Some result.now }
    {
        &self.list[i]
    }

    /// The last watcher, and none exactly where there is none.
    pub fn pop(&mut self) -> Option<Watcher>
        ensures { MatchOption result ((self.old ≡ []) × (self.new ≡ []))
            (λ w. self.old ≡ self.new ++ w ∷ []) }
    {
        self.list.pop()
    }
}
