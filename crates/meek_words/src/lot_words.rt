ghost use Rattle.std.specs.Prelude.{◌≡◌, ◌<◌, ◌↔◌, [], ◌∷◌, ◌++◌, length, reverse, slice_get, IfErr, IfNone, IfSome, IsNone, OnErr, OnOk};

use crate::PushBack;
use std::alloc::Global;
use std::marker::Model;

/// The numbers of an order of lots, first lot first, as they were typed.
///
/// Each is a number that nine digits can write, and need not be a candidate's.
#[derive(Debug, Drop)]
pub struct LotWords {
    list: Vec<u32>,
}

impl Model for LotWords {
    ghost use Rattle.std.specs.Prelude.{ℕ, List};

    ghost Value = { List ℕ };

    ghost view = { λ lots. lots.list.items };
}

impl LotWords {
    /// No numbers. The allocator serves each later `push`.
    pub fn new(alloc: Global) -> LotWords
        ensures { result ≡ [] }
    {
        LotWords {
            list: Vec::new(alloc),
        }
    }

    /// Puts a number after the others.
    pub fn push(&mut self, item: u32) -> Result<(), PushBack<u32>>
        ensures ok { OnOk result (self.new ≡ self.old ++ item ∷ []) }
        ensures refused { OnErr result (self.new ≡ self.old) }
        ensures handed_back { IfErr result (λ back. back.item ≡ item) }
    {
        match self.list.push(item) {
            Ok(()) => Ok(()),
            Err(failed) => Err(PushBack { item: failed.value }),
        }
    }

    /// Takes the last number out.
    pub fn pop(&mut self) -> Option<u32>
        ensures last { IfSome result (λ item. self.old ≡ self.new ++ item ∷ []) }
        ensures empty { IsNone result ↔ (self.old ≡ []) }
        ensures kept { IfNone result (self.new ≡ self.old) }
    {
        self.list.pop()
    }

    /// Turns the order round.
    pub fn reverse(&mut self)
        ensures { self.new ≡ reverse self.old }
    {
        self.list.reverse();
    }

    pub fn len(&self) -> usize
        ensures { result ≡ length self.now }
    {
        self.list.len()
    }

    pub fn items(&self) -> &[u32]
        ensures { result.now ≡ self.now }
    {
        self.list.as_slice()
    }

    pub fn get(&self, i: usize) -> &u32
        requires { i < length self.now }
        ensures { slice_get self.now i ≡ Some result.now }
    {
        &self.list[i]
    }
}
