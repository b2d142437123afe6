// The register of all calls.
ghost use Rattle.std.specs.Prelude.{◌≡◌, ◌+◌, ◌≤◌, [], ◌∷◌, ◌++◌, All, IfOk, OnOk};
ghost use Rattle.batch_core.specs.Book.{strike_reply};
ghost use Rattle.call_register.specs.Marks.{MayMark, marks_of, struck_by};

use crate::struck::Struck;
use crate::{Mark, Marks, NoMemory};
use batch_core::Reply;
use std::alloc::Global;
use std::marker::Model;

/// The order of all calls in an office of so many shards and candidates, how many of them each shard
/// has, and who is struck.
#[derive(Drop)]
pub struct Register {
    candidates: u32,
    marks: Marks,
    booked: Vec<u64>,
    struck: Struck,
}

impl Model for Register {
    ghost use Rattle.std.specs.Prelude.{◌≡◌, All, length, min};
    ghost use Rattle.call_register.specs.Marks.{RegisterState, AreBooked, MayMark, struck_by};

    ghost Value = { RegisterState };

    ghost view = { λ r. record { shards = length r.booked.items; candidates = r.candidates; marks = r.marks.items; spare = min r.marks.spare r.struck.spare } };

    ghost invariant = { λ r. AreBooked r.marks.items r.booked.items
        × (r.struck.candidates ≡ struck_by r.marks.items)
        × All (λ m. MayMark (length r.booked.items) r.candidates m) r.marks.items };
}

impl Register {
    pub fn new(alloc: Global, shards: u32, candidates: u32) -> Result<Register, NoMemory>
        ensures shards { IfOk result (λ register. register.shards ≡ shards) }
        ensures candidates { IfOk result (λ register. register.candidates ≡ candidates) }
        ensures marks { IfOk result (λ register. register.marks ≡ []) }
    {
        match vec![in alloc; 0; shards as usize] {
            Ok(booked) => Ok(Register {
                candidates,
                marks: Marks::new(alloc),
                booked,
                struck: Struck::new(alloc),
            }),
            Err(_) => Err(NoMemory),
        }
    }

    /// Makes room for one more mark.
    pub fn reserve(&mut self) -> Result<(), NoMemory>
        ensures shards { self.new.shards ≡ self.old.shards }
        ensures candidates { self.new.candidates ≡ self.old.candidates }
        ensures marks { self.new.marks ≡ self.old.marks }
        ensures room { OnOk result (1 ≤ self.new.spare) }
    {
        self.marks.reserve(1)?;
        self.struck.reserve(1)
    }

    /// Adds a mark that there is room for.
    pub fn push(&mut self, mark: Mark)
        requires room { 1 ≤ self.old.spare }
        requires mark { MayMark self.old.shards self.old.candidates mark }
        ensures shards { self.new.shards ≡ self.old.shards }
        ensures candidates { self.new.candidates ≡ self.old.candidates }
        ensures marks { self.new.marks ≡ self.old.marks ++ mark ∷ [] }
        ensures spare { self.old.spare ≤ self.new.spare + 1 }
    {
        match mark {
            Mark::Shard(shard) => {
                // A list's length is below 2^63, so the count of a shard's marks can't wrap.
                let _all_marks = self.marks.len();
                self.booked[shard as usize - 1] += 1;
                self.marks.push_reserved(mark);
            }
            Mark::Freeze(_) => self.marks.push_reserved(mark),
            Mark::Strike { candidate, .. } => {
                self.struck.strike(candidate);
                self.marks.push_reserved(mark);
            }
        }
    }

    /// The marks, each of one of these shards or, for a strike, of one of these candidates.
    pub fn marks(&self) -> &Marks
        ensures marks { result.now.items ≡ self.now.marks }
        ensures may { All (λ m. MayMark self.now.shards self.now.candidates m) self.now.marks }
    {
        &self.marks
    }

    /// The number of marks of a shard.
    pub fn booked(&self, shard: u32) -> u64
        requires { (1 ≤ shard) × (shard ≤ self.now.shards) }
        ensures { result ≡ marks_of shard self.now.marks }
    {
        self.booked[shard as usize - 1]
    }

    /// The reply to a strike of this candidate after these marks.
    pub fn strike_reply(&self, candidate: u32) -> Reply
        ensures { result ≡ strike_reply (struck_by self.now.marks) candidate }
    {
        self.struck.reply(candidate)
    }

    /// Each struck candidate once, in the order of their first strikes.
    pub fn struck(&self) -> &[u32]
        ensures { result.now ≡ struck_by self.now.marks }
    {
        self.struck.candidates()
    }
}
