// One number of ballots for each candidate.
ghost use Rattle.std.specs.Prelude.{◌≡◌, ◌<◌, length, replicate, slice_index, slice_set, IfOk};
ghost use Rattle.tally_board.specs.Moves.{CanMove, after_move};

use crate::{Move, NoMemory};
use std::alloc::Global;
use std::marker::Model;

/// One number of ballots for each candidate: candidate c's is at index c - 1.
#[derive(Debug, Drop)]
pub struct Totals {
    list: Vec<u64>,
}

impl Model for Totals {
    ghost use Rattle.std.specs.Prelude.{ℕ, List};

    ghost Value = { List ℕ };

    ghost view = { λ t. t.list.items };
}

impl Totals {
    pub fn filled(alloc: Global, len: usize, item: u64) -> Result<Totals, NoMemory>
        ensures { IfOk result (λ t. t ≡ replicate len item) }
    {
        match vec![in alloc; item; len] {
            Ok(list) => Ok(Totals { list }),
            Err(_) => Err(NoMemory),
        }
    }

    pub fn len(&self) -> usize
        ensures { result ≡ length self.now }
    {
        self.list.len()
    }

    pub fn items(&self) -> &[u64]
        ensures { result.now ≡ self.now }
    {
        self.list.as_slice()
    }

    pub fn get(&self, i: usize) -> &u64
        requires { i < length self.now }
        ensures { result.now ≡ slice_index self.now i }
    {
        &self.list[i]
    }

    pub fn set(&mut self, i: usize, item: u64)
        requires { i < length self.old }
        ensures { self.new ≡ slice_set self.old i item }
    {
        self.list[i] = item;
    }

    /// Takes over the numbers of a list of the same length.
    pub(crate) fn copy_from(&mut self, other: &Totals)
        requires { length self.old ≡ length other.now }
        ensures { self.new ≡ other.now }
    {
        self.list.copy_from_slice(other.list.as_slice());
    }

    /// Makes a move. One that can't be made leaves the length alone.
    pub(crate) fn follow(&mut self, step: &Move)
        ensures totals { CanMove self.old step.now → self.new ≡ after_move self.old step.now }
        ensures length { length self.new ≡ length self.old }
    {
        let candidate = step.candidate as usize;
        if candidate == 0 || candidate > self.list.len() {
            return;
        }
        let now = self.list[candidate - 1];
        let ballots = step.ballots as u64;
        self.list[candidate - 1] = if step.comes {
            now.saturating_add(ballots)
        } else {
            now.saturating_sub(ballots)
        };
    }
}
