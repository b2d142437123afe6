// A worker's lane.
ghost use Rattle.std.specs.Prelude.{◌≡◌, ◌+◌, ◌^◌, ◌<◌, ◌≤◌, IfOk, length, replicate};
ghost use Rattle.vote_spread.specs.declared.depths.TheConstants.{DEPTHS};
ghost use Rattle.vote_spread.specs.declared.limits.TheConstants.{MOST_WORKERS};
ghost use Rattle.vote_spread.specs.KeepingSeen.{settled};
ghost use Rattle.vote_spread.specs.Shares.{CanCount, HasCounted};
ghost use Rattle.vote_spread.specs.LaneSeen.{IsFit};
ghost use Rattle.vote_spread.specs.Walk.{IsWalk};

use crate::NoMemory;
use crate::admission::Admission;
use crate::depths::DEPTHS;
use crate::row::Row;
use crate::task::Task;
use crate::walk::walk;
use shared_work::share;
use std::alloc::Global;
use std::marker::Model;

/// What a worker has counted for each candidate, with the rows of its share and the weights on its
/// way.
#[derive(Drop)]
pub(crate) struct Lane {
    rows: Vec<Row>,
    weights: Vec<u64>,
    tally: Vec<u64>,
}

impl Model for Lane {
    ghost use Rattle.std.specs.Prelude.{◌≡◌, length, vec_capacity};
    ghost use Rattle.vote_spread.specs.declared.depths.TheConstants.{DEPTHS};
    ghost use Rattle.vote_spread.specs.Rows.{seen};
    ghost use Rattle.vote_spread.specs.LaneSeen.{LaneSeen};

    ghost Value = { LaneSeen };

    ghost view = { λ lane. record { tally = lane.tally.items; rows = seen lane.rows.items; room = vec_capacity lane.rows } };

    ghost invariant = { λ lane. length lane.weights.items ≡ DEPTHS };
}

impl Lane {
    /// A lane for so many candidates, with room for so many rows.
    pub(crate) fn new(alloc: Global, candidates: usize, room: usize) -> Result<Lane, NoMemory>
        requires { candidates < 2 ^ 32 }
        ensures of_all { IfOk result (λ lane. length lane.tally ≡ candidates) }
        ensures room { IfOk result (λ lane. lane.room ≡ room) }
    {
        Ok(Lane {
            rows: Vec::with_capacity(alloc, room)?,
            weights: zeros(alloc, DEPTHS)?,
            tally: zeros(alloc, candidates)?,
        })
    }

    pub(crate) fn tally(&self) -> &[u64]
        ensures { result.now ≡ self.now.tally }
    {
        self.tally.as_slice()
    }

    /// How many rows stand there, stale or not.
    pub(crate) fn row_count(&self) -> usize
        ensures { result ≡ length self.now.rows }
    {
        self.rows.len()
    }

    /// Counts what the share of the branches gives to each candidate that belongs to the lane
    /// admitted, of so many lanes. Where the lane's rows are stale they are made anew.
    pub(crate) fn count(&mut self, task: &Task, admission: Admission, count: usize)
        requires number { admission.number < count }
        requires few { count ≤ MOST_WORKERS }
        requires of_all { length self.old.tally ≡ length task.now.keeping.keeps }
        requires can { CanCount task.now.keeping task.now.branches }
        requires fit { IsFit task.now.keeping task.now.branches admission.number count self.old }
        ensures counted { HasCounted task.now.keeping task.now.branches admission.number count self.new.tally }
        ensures fit { IsFit (settled task.now.keeping) task.now.branches admission.number count self.new }
    {
        self.renew(task, admission.number(), count);
        walk(
            self.rows.as_slice(),
            &task.keeping.leaving(),
            self.weights.as_mut_slice(),
            self.tally.as_mut_slice(),
        );
    }

    /// Makes the rows of share `number` of so many of the branches in place of those before, where
    /// those are stale.
    fn renew(&mut self, task: &Task, number: usize, count: usize)
        requires number { number < count }
        requires few { count ≤ MOST_WORKERS }
        requires walk { IsWalk (length task.now.keeping.keeps) 1 task.now.branches }
        requires fit { IsFit task.now.keeping task.now.branches number count self.old }
        ensures fit { IsFit (settled task.now.keeping) task.now.branches number count self.new }
        ensures same_tally { self.new.tally ≡ self.old.tally }
    {
        if task.keeping.is_stale() {
            let branches = &task.branches;
            let from = share(branches.len(), number, count);
            let to = share(branches.len(), number + 1, count);
            branches.condense(from, to, task.keeping.classes(), &mut self.rows);
        }
    }
}

/// How many numbers are room enough between two lanes' buffers, so that no lane writes to a line of
/// memory that another reads.
const APART: usize = 16;

/// So many zeros, with room after them that is never used.
pub(crate) fn zeros(alloc: Global, len: usize) -> Result<Vec<u64>, NoMemory>
    requires { len < 2 ^ 32 }
    ensures { IfOk result (λ list. list.items ≡ replicate len 0) }
{
    let mut list = Vec::with_capacity(alloc, len + APART)?;
    list.resize(len, 0)?;
    Ok(list)
}
