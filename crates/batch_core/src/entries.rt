// Answered calls.
ghost use Rattle.std.specs.Prelude.{◌≡◌, ◌+◌, ◌<◌, ◌≤◌, ◌↔◌, [], ◌∷◌, ◌++◌, length, reverse, slice_get, Some, OnOk, OnErr, IfErr, IfSome, IfNone, IsNone};

use crate::{Entry, NoMemory, PushBack};
use std::alloc::Global;
use std::marker::Model;

/// Answered calls in their order, and how many more there is room for.
#[derive(Debug, Drop)]
pub struct Entries {
    list: Vec<Entry>,
}

impl Model for Entries {
    ghost use Rattle.std.specs.Prelude.{◌-◌, vec_len, vec_capacity};
    ghost use Rattle.batch_core.specs.Entries.{EntryList};

    ghost Value = { EntryList };

    ghost view = { λ s. record { items = s.list.items; spare = vec_capacity s.list - vec_len s.list } };
}

impl Entries {
    pub fn new(alloc: Global) -> Entries
        ensures { result.items ≡ [] }
    {
        Entries {
            list: Vec::new(alloc),
        }
    }

    pub fn push(&mut self, item: Entry) -> Result<(), PushBack<Entry>>
        ensures ok { OnOk result (self.new.items ≡ self.old.items ++ item ∷ []) }
        ensures refused { OnErr result (self.new.items ≡ self.old.items) }
        ensures handed_back { IfErr result (λ back. back.item ≡ item) }
    {
        match self.list.push(item) {
            Ok(()) => Ok(()),
            Err(failed) => Err(PushBack { item: failed.value }),
        }
    }

    /// Makes room for so many more entries.
    pub fn reserve(&mut self, more: usize) -> Result<(), NoMemory>
        ensures items { self.new.items ≡ self.old.items }
        ensures room { OnOk result (more ≤ self.new.spare) }
    {
        match self.list.reserve(more) {
            Ok(()) => Ok(()),
            Err(_) => Err(NoMemory),
        }
    }

    /// Adds an entry that there is room for.
    pub fn push_reserved(&mut self, item: Entry)
        requires { 1 ≤ self.old.spare }
        ensures items { self.new.items ≡ self.old.items ++ item ∷ [] }
        ensures spare { self.new.spare + 1 ≡ self.old.spare }
    {
        self.list.push_reserved(item);
    }

    pub fn pop(&mut self) -> Option<Entry>
        ensures last { IfSome result (λ item. self.old.items ≡ self.new.items ++ item ∷ []) }
        ensures empty { IsNone result ↔ (self.old.items ≡ []) }
        ensures kept { IfNone result (self.new.items ≡ self.old.items) }
    {
        self.list.pop()
    }

    pub fn reverse(&mut self)
        ensures items { self.new.items ≡ reverse self.old.items }
        ensures spare { self.new.spare ≡ self.old.spare }
    {
        self.list.reverse();
    }

    pub fn len(&self) -> usize
        ensures { result ≡ length self.now.items }
    {
        self.list.len()
    }

    pub fn items(&self) -> &[Entry]
        ensures { result.now ≡ self.now.items }
    {
        self.list.as_slice()
    }

    pub fn get(&self, i: usize) -> &Entry
        requires { i < length self.now.items }
        ensures { slice_get self.now.items i ≡ Some result.now }
    {
        &self.list[i]
    }
}
