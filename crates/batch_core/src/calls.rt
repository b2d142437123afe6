// The calls of one caller.
ghost use Rattle.std.specs.Prelude.{◌≡◌, ◌<◌, ◌↔◌, [], ◌∷◌, ◌++◌, length, reverse, slice_get, Some, OnOk, OnErr, IfErr, IfSome, IfNone, IsNone};

use crate::{Call, PushBack};
use std::alloc::Global;
use std::marker::Model;

/// Calls in the order in which they are made.
#[derive(Debug, Drop)]
pub struct Calls {
    list: Vec<Call>,
}

impl Model for Calls {
    ghost use Rattle.std.specs.Prelude.{List};
    ghost use Rattle.batch_core.specs.declared.call.Call.{Call};

    ghost Value = { List Call };

    ghost view = { λ s. s.list.items };
}

impl Calls {
    pub fn new(alloc: Global) -> Calls
        ensures { result ≡ [] }
    {
        Calls {
            list: Vec::new(alloc),
        }
    }

    pub fn push(&mut self, item: Call) -> Result<(), PushBack<Call>>
        ensures ok { OnOk result (self.new ≡ self.old ++ item ∷ []) }
        ensures refused { OnErr result (self.new ≡ self.old) }
        ensures handed_back { IfErr result (λ back. back.item ≡ item) }
    {
        match self.list.push(item) {
            Ok(()) => Ok(()),
            Err(failed) => Err(PushBack { item: failed.value }),
        }
    }

    pub fn pop(&mut self) -> Option<Call>
        ensures last { IfSome result (λ item. self.old ≡ self.new ++ item ∷ []) }
        ensures empty { IsNone result ↔ (self.old ≡ []) }
        ensures kept { IfNone result (self.new ≡ self.old) }
    {
        self.list.pop()
    }

    pub fn reverse(&mut self)
        ensures { self.new ≡ reverse self.old }
    {
        self.list.reverse();
    }

    pub fn len(&self) -> usize
        ensures { result ≡ length self.now }
    {
        self.list.len()
    }

    pub fn items(&self) -> &[Call]
        ensures { result.now ≡ self.now }
    {
        self.list.as_slice()
    }

    pub fn get(&self, i: usize) -> &Call
        requires { i < length self.now }
        ensures { slice_get self.now i ≡ Some result.now }
    {
        &self.list[i]
    }
}
