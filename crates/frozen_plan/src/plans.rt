// A list of plans.
ghost use Rattle.std.specs.Prelude.{◌≡◌, ◌<◌, ◌↔◌, [], ◌∷◌, ◌++◌, length, reverse, slice_get, IfErr, IfNone, IfSome, IsNone, OnErr, OnOk};

use crate::{Plan, PushBack};
use std::alloc::Global;
use std::marker::Model;

/// Plans whose ballots are counted together.
#[derive(Debug, Drop)]
pub struct Plans {
    list: Vec<Plan>,
}

impl Model for Plans {
    ghost use Rattle.std.specs.Prelude.{List};
    ghost use Rattle.frozen_plan.specs.Plan.{PlanRows};

    ghost Value = { List PlanRows };

    ghost view = { λ plans. plans.list.items };
}

impl Plans {
    /// No plans. The allocator serves each later `push`.
    pub fn new(alloc: Global) -> Plans
        ensures { result ≡ [] }
    {
        Plans {
            list: Vec::new(alloc),
        }
    }

    /// The plans of a list, in its order.
    pub fn of(list: Vec<Plan>) -> Plans
        ensures { result ≡ list.items }
    {
        Plans { list }
    }

    /// Puts a plan after the others.
    pub fn push(&mut self, item: Plan) -> Result<(), PushBack<Plan>>
        ensures ok { OnOk result (self.new ≡ self.old ++ item ∷ []) }
        ensures refused { OnErr result (self.new ≡ self.old) }
        ensures handed_back { IfErr result (λ back. back.item ≡ item) }
    {
        match self.list.push(item) {
            Ok(()) => Ok(()),
            Err(failed) => Err(PushBack { item: failed.value }),
        }
    }

    /// Takes the last plan out.
    pub fn pop(&mut self) -> Option<Plan>
        ensures last { IfSome result (λ item. self.old ≡ self.new ++ item ∷ []) }
        ensures empty { IsNone result ↔ (self.old ≡ []) }
        ensures kept { IfNone result (self.new ≡ self.old) }
    {
        self.list.pop()
    }

    /// Turns the order round.
    pub fn reverse(&mut self)
        ensures { self.new ≡ reverse self.old }
    {
        self.list.reverse();
    }

    pub fn len(&self) -> usize
        ensures { result ≡ length self.now }
    {
        self.list.len()
    }

    pub fn items(&self) -> &[Plan]
        ensures { result.now ≡ self.now }
    {
        self.list.as_slice()
    }

    pub fn get(&self, i: usize) -> &Plan
        requires { i < length self.now }
        ensures { slice_get self.now i ≡ Some result.now }
    {
        &self.list[i]
    }
}
