// One amount of votes for each candidate.
ghost use Rattle.std.specs.Prelude.{◌≡◌, ◌<◌, ◌≤◌, length, replicate, slice_index, slice_set, IfOk, All};
ghost use Rattle.fixed_place.specs.Rounding.{most};

use crate::{Amount, NoMemory};
use std::alloc::Global;
use std::marker::Model;

/// One amount of votes for each candidate: candidate c's is at index c - 1.
#[derive(Debug, Drop)]
pub struct Amounts<const P: usize> {
    list: Vec<Amount<P>>,
}

impl<const P: usize> Model for Amounts<P> {
    ghost use Rattle.std.specs.Prelude.{ℕ, ◌+◌, ◌^◌, ◌≤◌, List, All};

    ghost Value = { List ℕ };

    ghost view = { λ s. s.list.items };

    ghost invariant = { λ s. (6 ≤ P) × (P ≤ 9) × All (λ units. units ≤ 10 ^ (P + 9)) s.list.items };
}

impl<const P: usize> Amounts<P> {
    pub fn filled(alloc: Global, len: usize, item: Amount<P>) -> Result<Amounts<P>, NoMemory>
        ensures { IfOk result (λ list. list ≡ replicate len item.entry) }
    {
        let _units = item.units();
        match vec![in alloc; item; len] {
            Ok(list) => Ok(Amounts { list }),
            Err(_) => Err(NoMemory),
        }
    }

    pub fn len(&self) -> usize
        ensures value { result ≡ length self.now }
        ensures bound { All (λ units. units ≤ most P) self.now }
        ensures places { (6 ≤ P) × (P ≤ 9) }
    {
        self.list.len()
    }

    pub fn items(&self) -> &[Amount<P>]
        ensures { result.now ≡ self.now }
    {
        self.list.as_slice()
    }

    pub fn get(&self, i: usize) -> &Amount<P>
        requires { i < length self.now }
        ensures { result.now ≡ slice_index self.now i }
    {
        &self.list[i]
    }

    pub fn set(&mut self, i: usize, item: Amount<P>)
        requires { i < length self.old }
        ensures { self.new ≡ slice_set self.old i item.entry }
    {
        let _units = item.units();
        self.list[i] = item;
    }

    /// Takes over the items of a list of the same length.
    pub fn copy_from(&mut self, other: &Amounts<P>)
        requires { length self.old ≡ length other.now }
        ensures { self.new ≡ other.now }
    {
        self.list.copy_from_slice(other.list.as_slice());
    }
}
