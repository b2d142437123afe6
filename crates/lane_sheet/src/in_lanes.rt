// Counts in workers' lanes.
ghost use Rattle.std.specs.Prelude.{◌≡◌, ◌≤◌, All, length, map};
ghost use Rattle.fixed_place.specs.Rounding.{scale};
ghost use Rattle.frozen_plan.specs.Plan.{all_ballots};
ghost use Rattle.vote_spread.specs.declared.limits.TheConstants.{MOST_WORKERS};
ghost use Rattle.vote_spread.specs.Lanes.{HaveCounted};
ghost use Rattle.lane_sheet.specs.Due.{dues_of, WritesOrWants};
ghost use Rattle.lane_sheet.specs.Plans.{CanBeCounted};

use crate::begun_lanes::begin_lanes;
use crate::{CountText, Crew, NoMemory, Polls};
use byte_edge::{Failed, Gate, Sink};
use frozen_plan::Plans;
use std::thread::Threads;
use vote_spread::{Lanes, PlanSpread};

/// Distributes each of these lists of plans in lanes, and then has the text written of the counts by the
/// rolls at their places. All memory is taken before the first byte.
pub fn write_in_lanes<const P: usize, R, G, T, K>(
    crew: &Crew<'_, R, G>,
    plans: Vec<Plans>,
    polls: &Polls<'_>,
    text: &T,
    sink: &mut K,
) -> Result<Result<(), Failed>, NoMemory>
where
    R: Threads + Sync,
    G: Gate + Sync,
    T: CountText<P>,
    K: Sink,
    requires places { (6 ≤ P) × (P ≤ 9) }
    requires workers { (1 ≤ crew.now.workers) × (crew.now.workers ≤ MOST_WORKERS) }
    requires rolls { All (λ roll. length roll.names ≡ length polls.now.lots.now) polls.now.rolls.now }
    requires plans { All (CanBeCounted (length polls.now.lots.now)) plans.items }
    requires takes { T.takes text.now (dues_of polls.now.omega polls.now.lots.now polls.now.rolls.now (map all_ballots plans.items)) }
    ensures { WritesOrWants
        (T.is_text text.now (dues_of polls.now.omega polls.now.lots.now polls.now.rolls.now (map all_ballots plans.items)))
        K.written K.faults sink.old sink.new result }
{
    let (rt, gate) = (crew.rt, crew.gate);
    let run = |lanes: &mut Lanes|
        requires places { P ≤ 9 }
        requires scale { lanes.now.scale ≡ scale P }
        ensures { HaveCounted lanes.entry.now lanes.exit.now }
    { lanes.run::<P, R, G>(rt, gate) };
    let candidates = polls.lots.candidates();
    let begun = begin_lanes::<P, R, G>(crew, plans, candidates)?;
    let mut spreads = Vec::new(crew.alloc);
    for lanes in begun {
        let spread = PlanSpread::<P, _>::over(lanes, candidates, run);
        if spreads.push(spread).is_err() {
            return Err(NoMemory);
        }
    }
    text.write(crew.alloc, polls, spreads.as_mut_slice(), sink)
}
