// The nodes of tries in preorder, packed.
ghost use Rattle.std.specs.Prelude.{◌≡◌, ◌+◌, ◌-◌, ◌*◌, ◌^◌, ◌<◌, ◌≤◌, [], ◌∷◌, ◌++◌, All, OnErr, OnOk, length, map, slice_index_or, slice_set, sum_by, vec_capacity};
ghost use Rattle.plain_ballots.specs.declared.limits.TheConstants.{MOST_CANDIDATES};
ghost use Rattle.vote_spread.specs.Stem.{stem_of_row, closed_stem};
ghost use Rattle.vote_spread.specs.Walk.{IsWalk};
ghost use Rattle.vote_spread.specs.Rows.{seen, StandForPart, room_for};

use crate::NoMemory;
use crate::branch::Branch;
use crate::class::Class;
use crate::condense::condense;
use crate::row::Row;
use frozen_plan::PlanRow;
use std::alloc::Global;
use std::marker::Model;

/// The nodes of tries, each before those below it, in few bytes.
#[derive(Drop)]
pub(crate) struct Branches {
    list: Vec<Branch>,
    tails: Vec<u8>,
}

impl Model for Branches {
    ghost use Rattle.std.specs.Prelude.{List, length};
    ghost use Rattle.vote_spread.specs.Stem.{Stem, stems_of};
    ghost use Rattle.vote_spread.specs.Walk.{ArePacked};

    ghost Value = { List Stem };

    ghost view = { λ b. stems_of b.tails.items b.list.items };

    ghost invariant = { λ b. ArePacked (length b.tails.items) b.list.items };
}

impl Branches {
    pub(crate) fn new(alloc: Global) -> Branches
        ensures { result ≡ [] }
    {
        Branches {
            list: Vec::new(alloc),
            tails: Vec::new(alloc),
        }
    }

    pub(crate) fn len(&self) -> usize
        ensures value { result ≡ length self.now }
        ensures few { result < 2 ^ 32 }
    {
        self.list.len()
    }

    /// Puts a node at a depth after the others, and the candidates that follow on all its ballots.
    pub(crate) fn push(
        &mut self,
        depth: u16,
        row: PlanRow,
        tail: &[PlanRow],
    ) -> Result<(), NoMemory>
        requires depth { depth ≤ MOST_CANDIDATES }
        requires candidate { row.candidate ≤ MOST_CANDIDATES }
        requires short { length tail.now ≤ MOST_CANDIDATES }
        requires candidates { All (λ r. r.candidate ≤ MOST_CANDIDATES) tail.now }
        ensures { OnOk result (self.new ≡ self.old ++ stem_of_row depth row tail.now ∷ []) }
    {
        if self.list.len() >= MOST || self.tails.len() >= MOST {
            return Err(NoMemory);
        }
        let branch = Branch {
            ballots: row.ballots,
            skip: 1,
            tail: self.tails.len() as u32,
            depth: depth as u8,
            candidate: row.candidate as u8,
            length: tail.len() as u8,
        };
        push_tail(&mut self.tails, tail)?;
        self.list.push(branch)?;
        Ok(())
    }

    /// Says of a node that all after it are below it.
    pub(crate) fn close(&mut self, at: usize)
        requires { at < length self.old }
        ensures { (d : _) → self.new ≡ slice_set self.old at (closed_stem (slice_index_or self.old at d) (length self.old - at)) }
    {
        let skip = (self.list.len() - at) as u32;
        let branch = self.list[at];
        self.list[at] = Branch { skip, ..branch };
    }

    /// Makes the rows of nodes `from` to `to` in place of those that stand there, while candidates
    /// are of these classes.
    pub(crate) fn condense(&self, from: usize, to: usize, classes: &[Class], rows: &mut Vec<Row>)
        requires range { to ≤ length self.now }
        requires walk { IsWalk (length classes.now) 1 self.now }
        requires room { room_for self.now from to ≤ vec_capacity rows.old }
        ensures capacity { vec_capacity rows.new ≡ vec_capacity rows.old }
        ensures stand { StandForPart classes.now self.now from to (seen rows.new.items) }
    {
        condense(
            self.list.as_slice(),
            self.tails.as_slice(),
            from,
            to,
            classes,
            rows,
        );
    }

    /// For how many rows there has to be room, whatever the classes are.
    pub(crate) fn room(&self, from: usize, to: usize) -> usize
        requires { (from ≤ to) × (to ≤ length self.now) }
        ensures { result ≡ room_for self.now from to }
    {
        from + tail_room(&self.list[from..to])
    }
}

/// How many branches there are, with their tails.
fn tail_room(branches: &[Branch]) -> usize
    requires { length branches.now < 2 ^ 32 }
    ensures value { result ≡ sum_by (λ b. b.length + 1) branches.now }
    ensures few { result ≤ 256 * length branches.now }
{
    let mut room = 0;
    for branch in branches {
        room += branch.length as usize + 1;
    }
    room
}

/// More nodes are as good as no memory for them.
const MOST: usize = 4_294_967_295;

/// Appends the candidates of some rows.
fn push_tail(tails: &mut Vec<u8>, rows: &[PlanRow]) -> Result<(), NoMemory>
    requires { All (λ r. r.candidate ≤ MOST_CANDIDATES) rows.now }
    ensures ok { OnOk result (tails.new.items ≡ tails.old.items ++ map (λ r. r.candidate) rows.now) }
    ensures more { length tails.old.items ≤ length tails.new.items }
{
    for row in rows {
        tails.push(row.candidate as u8)?;
    }
    Ok(())
}
