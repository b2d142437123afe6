// The states of all candidates.
ghost use Rattle.std.specs.Prelude.{◌≡◌, ◌<◌, length, replicate, slice_get, slice_set, IfOk};
ghost use Rattle.candidate_roll.specs.State.{state_at};

use crate::{NoMemory, State};
use std::alloc::Global;
use std::marker::Model;

/// The states of all candidates: candidate c's is at index c - 1.
#[derive(Debug, Drop)]
pub struct States {
    list: Vec<State>,
}

impl Model for States {
    ghost use Rattle.std.specs.Prelude.{List};
    ghost use Rattle.candidate_roll.specs.declared.state.State.{State};

    ghost Value = { List State };

    ghost view = { λ s. s.list.items };
}

impl States {
    pub fn filled(alloc: Global, len: usize, item: State) -> Result<States, NoMemory>
        ensures { IfOk result (λ s. s ≡ replicate len item) }
    {
        match vec![in alloc; item; len] {
            Ok(list) => Ok(States { list }),
            Err(_) => Err(NoMemory),
        }
    }

    pub fn len(&self) -> usize
        ensures { result ≡ length self.now }
    {
        self.list.len()
    }

    pub fn items(&self) -> &[State]
        ensures { result.now ≡ self.now }
    {
        self.list.as_slice()
    }

    pub fn get(&self, i: usize) -> &State
        requires { i < length self.now }
        ensures item { slice_get self.now i ≡ Some result.now }
        ensures state { result.now ≡ state_at self.now i }
    {
        &self.list[i]
    }

    pub fn set(&mut self, i: usize, item: State)
        requires { i < length self.old }
        ensures { self.new ≡ slice_set self.old i item }
    {
        self.list[i] = item;
    }

    /// Takes over the items of a list of the same length.
    pub fn copy_from(&mut self, other: &States)
        requires { length self.old ≡ length other.now }
        ensures { self.new ≡ other.now }
    {
        self.list.copy_from_slice(other.list.as_slice());
    }
}
