// Workers' lanes over the ballots of plans.
ghost use Rattle.std.specs.Prelude.{◌≡◌, ℕ, ◌+◌, ◌<◌, ◌≤◌, All, IfOk, length, slice_index, sum_by, true, vec_len};
ghost use Rattle.plain_ballots.specs.declared.limits.TheConstants.{MOST_BALLOTS};
ghost use Rattle.fixed_place.specs.Rounding.{scale, most};
ghost use Rattle.frozen_plan.specs.Plan.{all_ballots};
ghost use Rattle.vote_spread.specs.declared.limits.TheConstants.{MOST_WORKERS};
ghost use Rattle.vote_spread.specs.KeepingSeen.{KeepingSeen};
ghost use Rattle.vote_spread.specs.LaneSeen.{AreFit};
ghost use Rattle.vote_spread.specs.Lanes.{HaveCounted, AreLoaded};
ghost use Rattle.vote_spread.specs.Rows.{room_for};
ghost use Rattle.shared_work.specs.Shares.{share};

use crate::NoMemory;
use crate::branches::Branches;
use crate::gather::gather;
use crate::keeping::Keeping;
use crate::lane::Lane;
use crate::pack::pack_plans;
use crate::run::run_lanes;
use crate::task::Task;
use byte_edge::Gate;
use fixed_place::{Amounts, Keeps, scale_of};
use frozen_plan::Plans;
use shared_work::share;
use std::alloc::Global;
use std::marker::Model;
use std::snapshot::Snapshot;
use std::thread::Threads;

/// Workers' lanes over the ballots of plans, which share them evenly. Each lane has buffers of its
/// own.
#[derive(Drop)]
pub struct Lanes {
    plans: Snapshot<Plans>,
    total: u64,
    task: Task,
    lanes: Vec<Lane>,
}

/// From so many rows on, lanes run in threads at each distribution: to start threads and to join them
/// costs as much as a walk over some tens of thousands, and a busy machine lets them wait for longer.
const MANY: usize = 100_000;

/// From so many rows on, lanes run in threads where they make their rows anew, which takes some times
/// as long as the walk; or from so many branches on, where no rows stand yet.
const MANY_TO_MAKE: usize = 25_000;

impl Model for Lanes {
    ghost use Rattle.std.specs.Prelude.{◌≡◌, length};
    ghost use Rattle.frozen_plan.specs.Plan.{all_ballots};
    ghost use Rattle.vote_spread.specs.LaneSeen.{tallies_of};
    ghost use Rattle.vote_spread.specs.Lanes.{LanesSeen, AreReady};

    ghost Value = { LanesSeen };

    ghost view = { λ l. record { scale = l.task.keeping.one; ballots = all_ballots l.plans.value; keeps = l.task.keeping.keeps; tallies = tallies_of l.lanes.items } };

    ghost invariant = { λ l. AreReady (all_ballots l.plans.value) l.task.branches l.task.keeping l.lanes.items × (l.total ≡ length (all_ballots l.plans.value)) };
}

impl Lanes {
    /// Lanes of so many workers over the ballots of plans, before any keep value. The plans are packed into
    /// branches and let go, which takes long where they are large, and all memory of the lanes is taken.
    pub fn begin<const P: usize>(
        alloc: Global,
        plans: Plans,
        candidates: u32,
        workers: u32,
    ) -> Result<Lanes, NoMemory>
        requires places { P ≤ 9 }
        requires workers { (1 ≤ workers) × (workers ≤ MOST_WORKERS) }
        requires plans { All (λ plan. plan.candidates ≡ candidates) plans }
        requires few { length (all_ballots plans) ≤ MOST_BALLOTS }
        ensures scale { IfOk result (λ lanes. lanes.scale ≡ scale P) }
        ensures ballots { IfOk result (λ lanes. lanes.ballots ≡ all_ballots plans) }
        ensures candidates { IfOk result (λ lanes. length lanes.keeps ≡ candidates) }
    {
        let ballots = Snapshot::of(&plans);
        let total = total_of(&plans);
        let branches = pack_plans(alloc, plans)?;
        let keeping = Keeping::nothing(alloc, scale_of::<P>(), candidates as usize)?;
        let lanes = lanes_of(alloc, candidates, workers, &branches)?;
        Ok(Lanes {
            plans: ballots,
            total,
            task: Task { branches, keeping },
            lanes,
        })
    }

    /// How many ballots the lanes are over.
    pub fn ballots(&self) -> u64
        ensures { result ≡ length self.now.ballots }
    {
        self.total
    }

    /// Distributes the ballots, each lane its share. At each distribution over many rows, and at a
    /// first one whose rows are made of many branches, the lanes run in threads of their own where
    /// such can be had; else one after another in the caller's. Each passes the gate at its number,
    /// from 1, before its work.
    pub fn run<const P: usize, R: Threads + Sync, G: Gate + Sync>(&mut self, rt: &R, gate: &G)
        requires places { P ≤ 9 }
        requires scale { self.old.scale ≡ scale P }
        ensures { HaveCounted self.old self.new }
    {
        let in_threads = pays(&self.lanes, &self.task);
        run_lanes(rt, gate, in_threads, &self.task, self.lanes.as_mut_slice());
        self.task.keeping.settle();
    }

    /// Takes over the keep values at which the ballots are to be distributed.
    pub(crate) fn load<const P: usize>(&mut self, keeps: &Keeps<P>)
        requires scale { self.old.scale ≡ scale P }
        requires keeps_of_all { length keeps.now ≡ length self.old.keeps }
        ensures { AreLoaded keeps.now self.old self.new }
    {
        self.task.keeping.load(keeps);
    }

    /// Fills a tally with what all lanes have counted.
    pub(crate) fn gather<const P: usize>(&self, tally: &mut Amounts<P>)
        requires votes_of_all { length tally.old ≡ length self.now.keeps }
        requires room { (p : ℕ) → p < length tally.old → sum_by (λ own. slice_index own p) self.now.tallies ≤ most P }
        ensures same_length { length tally.new ≡ length tally.old }
        ensures sums { (p : ℕ) → p < length tally.old → slice_index tally.new p ≡ sum_by (λ own. slice_index own p) self.now.tallies }
    {
        gather(self.lanes.as_slice(), tally);
    }
}

/// How many ballots all plans have.
fn total_of(plans: &Plans) -> u64
    requires { length (all_ballots plans.now) ≤ MOST_BALLOTS }
    ensures { result ≡ length (all_ballots plans.now) }
{
    let mut total = 0;
    for plan in plans.items() {
        total += plan.total();
    }
    total
}

/// Whether threads bring more than they cost: there are many rows, as far as is known from those of the
/// distribution before, or at the first one from the branches.
fn pays(lanes: &[Lane], task: &Task) -> bool {
    let rows = row_count(lanes);
    if !task.keeping.is_stale() {
        return rows >= MANY;
    }
    let to_make = if rows == 0 { task.branches.len() } else { rows };
    to_make >= MANY_TO_MAKE
}

/// How many rows stand in all lanes, stale or not.
fn row_count(lanes: &[Lane]) -> usize {
    let mut rows: usize = 0;
    for lane in lanes {
        rows = rows.saturating_add(lane.row_count());
    }
    rows
}

/// So many lanes with buffers for the candidates, and with room for the rows of their shares.
fn lanes_of(
    alloc: Global,
    candidates: u32,
    workers: u32,
    branches: &Branches,
) -> Result<Vec<Lane>, NoMemory>
    requires { (1 ≤ workers) × (workers ≤ MOST_WORKERS) }
    ensures as_many { IfOk result (λ lanes. vec_len lanes ≡ workers) }
    ensures of_all { IfOk result (λ lanes. All (λ lane. length lane.tally ≡ candidates) lanes.items) }
    ensures fit { IfOk result (λ lanes. (keeping : KeepingSeen) → keeping.stale ≡ true → AreFit keeping branches.now 0 workers lanes.items) }
{
    let mut lanes = Vec::with_capacity(alloc, workers as usize)?;
    for k in 0..workers {
        let room = room_of(branches, k as usize, workers as usize);
        lanes.push_reserved(Lane::new(alloc, candidates as usize, room)?);
    }
    Ok(lanes)
}

/// For how many rows lane `number` of so many has to have room.
fn room_of(branches: &Branches, number: usize, count: usize) -> usize
    requires { (number < count) × (count ≤ MOST_WORKERS) }
    ensures { result ≡ room_for branches.now (share (length branches.now) number count) (share (length branches.now) (number + 1) count) }
{
    let from = share(branches.len(), number, count);
    let to = share(branches.len(), number + 1, count);
    branches.room(from, to)
}
