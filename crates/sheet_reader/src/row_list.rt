// The iterations of a sheet.
ghost use Rattle.std.specs.Prelude.{◌≡◌, ◌<◌, ◌↔◌, [], ◌∷◌, ◌++◌, length, reverse, slice_get, IfErr, IfNone, IfSome, IsNone, OnErr, OnOk};

use crate::PushBack;
use crate::row_sink::RowSink;
use meek_rule::{NoMemory, Row};
use std::alloc::Global;
use std::marker::Model;
use std::mem;

/// Iterations in the order in which they were made.
#[derive(Debug, Drop)]
pub struct RowList<const P: usize> {
    list: Vec<Row<P>>,
}

impl<const P: usize> Model for RowList<P> {
    ghost use Rattle.std.specs.Prelude.{List};
    ghost use Rattle.meek_rule.specs.Row.{Row};

    ghost Value = { List Row };

    ghost view = { λ rows. rows.list.items };
}

impl<const P: usize> RowList<P> {
    /// No iterations. The allocator serves each later `push`.
    pub fn new(alloc: Global) -> RowList<P>
        ensures { result ≡ [] }
    {
        RowList {
            list: Vec::new(alloc),
        }
    }

    /// Puts an iteration after the others.
    pub fn push(&mut self, item: Row<P>) -> Result<(), PushBack<Row<P>>>
        ensures ok { OnOk result (self.new ≡ self.old ++ item.entry ∷ []) }
        ensures refused { OnErr result (self.new ≡ self.old) }
        ensures handed_back { IfErr result (λ back. back.item ≡ item.entry) }
    {
        match self.list.push(item) {
            Ok(()) => Ok(()),
            Err(failed) => Err(PushBack { item: failed.value }),
        }
    }

    /// Takes the last iteration out.
    pub fn pop(&mut self) -> Option<Row<P>>
        ensures last { IfSome result (λ item. self.old ≡ self.new ++ item ∷ []) }
        ensures empty { IsNone result ↔ (self.old ≡ []) }
        ensures kept { IfNone result (self.new ≡ self.old) }
    {
        self.list.pop()
    }

    /// Turns the order round.
    pub fn reverse(&mut self)
        ensures { self.new ≡ reverse self.old }
    {
        self.list.reverse();
    }

    pub fn len(&self) -> usize
        ensures { result ≡ length self.now }
    {
        self.list.len()
    }

    pub fn items(&self) -> &[Row<P>]
        ensures { result.now ≡ self.now }
    {
        self.list.as_slice()
    }

    pub fn get(&self, i: usize) -> &Row<P>
        requires { i < length self.now }
        ensures { slice_get self.now i ≡ Some result.now }
    {
        &self.list[i]
    }
}

impl<const P: usize> RowSink<P> for RowList<P> {
    ghost takes = { λ before row after. after ≡ before ++ row ∷ [] };

    fn take(&mut self, alloc: Global, row: &mut Row<P>) -> Result<(), NoMemory> {
        let next = Row::new(alloc, row.states.len() as u32)?;
        match self.push(mem::replace(row, next)) {
            Ok(()) => Ok(()),
            Err(_) => Err(NoMemory),
        }
    }
}
