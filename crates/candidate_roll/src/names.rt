// The names of all candidates.
ghost use Rattle.std.specs.Prelude.{◌≡◌, ◌<◌, ◌↔◌, [], ◌∷◌, ◌++◌, length, reverse, slice_get, IfOk, OnOk, OnErr, IfErr, IfSome, IfNone, IsNone};

use crate::{MOST_NAME_BYTES, Name, NoMemory, PushBack};
use std::alloc::Global;
use std::marker::Model;

/// The names of all candidates: candidate c's is at index c - 1.
#[derive(Debug, Drop)]
pub struct Names {
    list: Vec<Name<MOST_NAME_BYTES>>,
}

impl Model for Names {
    ghost use Rattle.std.specs.Prelude.{List, ℕ};

    ghost Value = { List (List ℕ) };

    ghost view = { λ s. s.list.items };
}

impl Names {
    pub fn new(alloc: Global) -> Names
        ensures { result ≡ [] }
    {
        Names {
            list: Vec::new(alloc),
        }
    }

    pub fn push(
        &mut self,
        item: Name<MOST_NAME_BYTES>,
    ) -> Result<(), PushBack<Name<MOST_NAME_BYTES>>>
        ensures ok { OnOk result (self.new ≡ self.old ++ item ∷ []) }
        ensures refused { OnErr result (self.new ≡ self.old) }
        ensures handed_back { IfErr result (λ back. back.item ≡ item) }
    {
        match self.list.push(item) {
            Ok(()) => Ok(()),
            Err(failed) => Err(PushBack { item: failed.value }),
        }
    }

    pub fn copy(&self, alloc: Global) -> Result<Names, NoMemory>
        ensures { IfOk result (λ names. names ≡ self.now) }
    {
        let Ok(mut list) = Vec::with_capacity(alloc, self.list.len()) else {
            return Err(NoMemory);
        };
        for name in &self.list {
            let copy = name.copy(alloc)?;
            if list.push(copy).is_err() {
                return Err(NoMemory);
            }
        }
        Ok(Names { list })
    }

    pub fn pop(&mut self) -> Option<Name<MOST_NAME_BYTES>>
        ensures last { IfSome result (λ item. self.old ≡ self.new ++ item ∷ []) }
        ensures empty { IsNone result ↔ (self.old ≡ []) }
        ensures kept { IfNone result (self.new ≡ self.old) }
    {
        self.list.pop()
    }

    pub fn reverse(&mut self)
        ensures { self.new ≡ reverse self.old }
    {
        self.list.reverse();
    }

    pub fn len(&self) -> usize
        ensures { result ≡ length self.now }
    {
        self.list.len()
    }

    pub fn items(&self) -> &[Name<MOST_NAME_BYTES>]
        ensures { result.now ≡ self.now }
    {
        self.list.as_slice()
    }

    pub fn get(&self, i: usize) -> &Name<MOST_NAME_BYTES>
        requires { i < length self.now }
        ensures { slice_get self.now i ≡ Some result.now }
    {
        &self.list[i]
    }
}
