// Lanes in threads, or one after another.
ghost use Rattle.std.specs.Prelude.{◌≡◌, ◌+◌, ◌≤◌, All, length};
ghost use Rattle.vote_spread.specs.declared.limits.TheConstants.{MOST_WORKERS};
ghost use Rattle.vote_spread.specs.KeepingSeen.{settled};
ghost use Rattle.vote_spread.specs.Shares.{CanCount};
ghost use Rattle.vote_spread.specs.LaneSeen.{AreFit, HaveRun};

use crate::MOST_WORKERS;
use crate::admission::Admission;
use crate::lane::Lane;
use crate::task::Task;
use byte_edge::Gate;
use std::thread;
use std::thread::Threads;

/// Runs the lanes over their shares of the branches: each in a thread of its own where one can be
/// had, or all in this one. Each passes the gate at its number, from 1, before its work.
pub(crate) fn run_lanes<R: Threads + Sync, G: Gate + Sync>(
    rt: &R,
    gate: &G,
    in_threads: bool,
    task: &Task,
    lanes: &mut [Lane],
)
    requires few { length lanes.old ≤ MOST_WORKERS }
    requires of_all { All (λ lane. length lane.tally ≡ length task.now.keeping.keeps) lanes.old }
    requires can { CanCount task.now.keeping task.now.branches }
    requires fit { AreFit task.now.keeping task.now.branches 0 (length lanes.old) lanes.old }
    ensures as_many { length lanes.new ≡ length lanes.old }
    ensures counted { HaveRun task.now.keeping task.now.branches 0 (length lanes.old) lanes.new }
    ensures fit { AreFit (settled task.now.keeping) task.now.branches 0 (length lanes.old) lanes.new }
{
    let count = lanes.len();
    let run = |first: usize, part: &mut [Lane]|
        requires { (first + length part.now ≤ count) × (count ≤ MOST_WORKERS) × CanCount task.now.keeping task.now.branches × All (λ lane. length lane.tally ≡ length task.now.keeping.keeps) part.now × AreFit task.now.keeping task.now.branches first count part.now }
        ensures { (length part.exit.now ≡ length part.entry.now) × HaveRun task.entry.now.keeping task.entry.now.branches first count part.exit.now × AreFit (settled task.entry.now.keeping) task.entry.now.branches first count part.exit.now }
    { run_part(gate, task, first, count, part) };
    let together = if in_threads { 1 } else { MOST_WORKERS as usize };
    thread::for_each_chunk_mut(rt, lanes, together, &run);
}

/// Runs some of the lanes one after another.
fn run_part<G: Gate>(gate: &G, task: &Task, first: usize, count: usize, lanes: &mut [Lane])
    requires numbers { first + length lanes.old ≤ count }
    requires few { count ≤ MOST_WORKERS }
    requires of_all { All (λ lane. length lane.tally ≡ length task.now.keeping.keeps) lanes.old }
    requires can { CanCount task.now.keeping task.now.branches }
    requires fit { AreFit task.now.keeping task.now.branches first count lanes.old }
    ensures as_many { length lanes.new ≡ length lanes.old }
    ensures counted { HaveRun task.now.keeping task.now.branches first count lanes.new }
    ensures fit { AreFit (settled task.now.keeping) task.now.branches first count lanes.new }
{
    for k in 0..lanes.len() {
        let admission = Admission::pass(gate, first + k);
        lanes[k].count(task, admission, count);
    }
}
