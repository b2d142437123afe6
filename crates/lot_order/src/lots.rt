// The order of lots.
ghost use Rattle.std.specs.Prelude.{◌≡◌, ◌-◌, ◌<◌, ◌≤◌, ℕ, true, nat_lt, length, All, IfOk, IfErr, IfSome, IfNone, OnOk};
ghost use Rattle.plain_ballots.specs.declared.limits.TheConstants.{MOST_CANDIDATES};
ghost use Rattle.lot_order.specs.Flags.{mark_at};
ghost use Rattle.lot_order.specs.Lots.{IsOrder, IsLotsStop, AreLots, Sees, IsFirstUnmarked, first_marked, place_in};

use crate::{Flags, LotsStop};
use plain_ballots::MOST_CANDIDATES;
use std::alloc::Global;
use std::marker::Model;

/// An election has at most this many candidates.
const MOST: usize = MOST_CANDIDATES as usize;

/// An order of all candidates, withdrawn ones included, by which ties are broken.
#[derive(Debug, Drop)]
pub struct Lots {
    order: Vec<u32>,
}

impl Model for Lots {
    ghost use Rattle.std.specs.Prelude.{List, ℕ, length};
    ghost use Rattle.lot_order.specs.Lots.{IsOrder};

    ghost Value = { List ℕ };

    ghost view = { λ lots. lots.order.items };

    ghost invariant = { λ lots. IsOrder lots.order.items };
}

impl Lots {
    /// An order in which each candidate from 1 to `candidates` appears once. A roll has at most 250
    /// candidates, so no caller has more.
    pub fn try_new(alloc: Global, order: &[u32], candidates: u32) -> Result<Lots, LotsStop>
        requires few { candidates ≤ MOST_CANDIDATES }
        ensures ok { IfOk result (λ lots. lots ≡ order.now) }
        ensures order { OnOk result (IsOrder order.now) }
        ensures all { OnOk result (length order.now ≡ candidates) }
        ensures stop { IfErr result (IsLotsStop candidates order.now) }
    {
        check_order(order, candidates)?;
        match Vec::from_slice(alloc, order) {
            Ok(order) => Ok(Lots { order }),
            Err(_) => Err(LotsStop::NoMemory),
        }
    }

    pub fn candidates(&self) -> u32
        ensures count { result ≡ length self.now }
        ensures order { IsOrder self.now }
    {
        self.order.len() as u32
    }

    /// The marked candidate that is first.
    pub fn first_of(&self, tied: &Flags) -> u32
        requires lengths { length tied.now ≡ length self.now }
        requires marked { (p : ℕ) × (mark_at tied.now p ≡ true) }
        ensures first { result ≡ first_marked self.now tied.now }
        ensures candidate { (1 ≤ result) × (result ≤ length self.now) }
        ensures is_marked { mark_at tied.now (result - 1) ≡ true }
    {
        for c in &self.order {
            if *tied.get((*c - 1) as usize) {
                return *c;
            }
        }
        unreachable!()
    }

    /// Whether `a` stands after `b`.
    pub fn later(&self, a: u32, b: u32) -> bool
        requires first { (1 ≤ a) × (a ≤ length self.now) }
        requires second { (1 ≤ b) × (b ≤ length self.now) }
        ensures { result ≡ nat_lt (place_in self.now b) (place_in self.now a) }
    {
        for c in &self.order {
            if *c == a {
                return false;
            }
            if *c == b {
                return true;
            }
        }
        false
    }
}

/// Whether each candidate is in the order once.
fn check_order(order: &[u32], candidates: u32) -> Result<(), LotsStop>
    requires { candidates ≤ MOST_CANDIDATES }
    ensures ok { OnOk result (IsOrder order.now × (length order.now ≡ candidates)) }
    ensures stop { IfErr result (IsLotsStop candidates order.now) }
{
    let mut table = [false; MOST];
    let seen = &mut table[..candidates as usize];
    mark_seen(order, candidates as usize, seen)?;
    match first_unmarked(seen) {
        Some(number) => Err(LotsStop::NotAll(number)),
        None => Ok(()),
    }
}

/// Marks who is in the order, or answers the first place at fault.
fn mark_seen(order: &[u32], candidates: usize, seen: &mut [bool]) -> Result<(), LotsStop>
    requires { length seen.old ≡ candidates }
    ensures sound { OnOk result (AreLots candidates order.now) }
    ensures marks { OnOk result (Sees seen.new order.now) }
    ensures stop { IfErr result (IsLotsStop candidates order.now) }
{
    seen.fill(false);
    for (i, c) in order.iter().enumerate() {
        let c = *c as usize;
        if c == 0 || c > candidates {
            return Err(LotsStop::OutOfRange(i + 1));
        }
        if seen[c - 1] {
            return Err(LotsStop::Twice(i + 1));
        }
        seen[c - 1] = true;
    }
    Ok(())
}

/// The least candidate that has no mark.
fn first_unmarked(seen: &[bool]) -> Option<u32>
    requires { length seen.now ≤ MOST_CANDIDATES }
    ensures none { IfNone result (All (λ mark. mark ≡ true) seen.now) }
    ensures some { IfSome result (IsFirstUnmarked seen.now) }
{
    for (i, mark) in seen.iter().enumerate() {
        if !*mark {
            return Some(i as u32 + 1);
        }
    }
    None
}
