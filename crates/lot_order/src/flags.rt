// A mark for each candidate.
ghost use Rattle.std.specs.Prelude.{◌≡◌, ◌<◌, length, replicate, slice_get, slice_set, IfOk};
ghost use Rattle.lot_order.specs.Flags.{mark_at};

use crate::NoMemory;
use std::alloc::Global;
use std::marker::Model;

/// A mark for each candidate: candidate c's is at index c - 1.
#[derive(Debug, Drop)]
pub struct Flags {
    list: Vec<bool>,
}

impl Model for Flags {
    ghost use Rattle.std.specs.Prelude.{List, Bool};

    ghost Value = { List Bool };

    ghost view = { λ s. s.list.items };
}

impl Flags {
    pub fn filled(alloc: Global, len: usize, item: bool) -> Result<Flags, NoMemory>
        ensures { IfOk result (λ s. s ≡ replicate len item) }
    {
        match vec![in alloc; item; len] {
            Ok(list) => Ok(Flags { list }),
            Err(_) => Err(NoMemory),
        }
    }

    pub fn len(&self) -> usize
        ensures { result ≡ length self.now }
    {
        self.list.len()
    }

    pub fn items(&self) -> &[bool]
        ensures { result.now ≡ self.now }
    {
        self.list.as_slice()
    }

    pub fn get(&self, i: usize) -> &bool
        requires { i < length self.now }
        ensures item { slice_get self.now i ≡ Some result.now }
        ensures mark { result.now ≡ mark_at self.now i }
    {
        &self.list[i]
    }

    pub fn set(&mut self, i: usize, item: bool)
        requires { i < length self.old }
        ensures { self.new ≡ slice_set self.old i item }
    {
        self.list[i] = item;
    }

    /// Takes over the marks of a list of the same length.
    pub fn copy_from(&mut self, other: &Flags)
        requires { length self.old ≡ length other.now }
        ensures { self.new ≡ other.now }
    {
        self.list.copy_from_slice(other.list.as_slice());
    }

    /// Makes all marks this one.
    pub fn fill(&mut self, item: bool)
        ensures { self.new ≡ replicate (length self.old) item }
    {
        self.list.fill(item);
    }
}
