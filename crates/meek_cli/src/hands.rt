// What a run is worked on with.
ghost use Rattle.std.specs.Prelude.{◌≤◌};
ghost use Rattle.vote_spread.specs.declared.limits.TheConstants.{MOST_WORKERS};

use crate::split::Split;
use lane_sheet::Crew;
use std::alloc::Global;

/// What a run is worked on with: the runtime whose threads are taken, memory, the gate that teams and
/// lanes pass, and how ballots are shared.
#[derive(Drop)]
pub(crate) struct Hands<'a, R, G> {
    pub(crate) rt: &'a R,
    pub(crate) alloc: Global,
    pub(crate) gate: &'a G,
    pub(crate) split: Split,
}

impl<'a, R, G> Hands<'a, R, G> {
    /// Those that count.
    pub(crate) fn crew(&self) -> Crew<'a, R, G>
        ensures shards { 1 ≤ result.shards }
        ensures workers { (1 ≤ result.workers) × (result.workers ≤ MOST_WORKERS) }
    {
        Crew {
            rt: self.rt,
            alloc: self.alloc,
            gate: self.gate,
            shards: self.split.shards(),
            workers: self.split.workers(),
        }
    }
}
