// A distribution of the ballots of plans by lanes.
ghost use Rattle.std.specs.Prelude.{◌≡◌, ◌≤◌, ◌^◌, All, IfOk, length};
ghost use Rattle.plain_ballots.specs.declared.limits.TheConstants.{MOST_BALLOTS};
ghost use Rattle.fixed_place.specs.Rounding.{scale};
ghost use Rattle.frozen_plan.specs.Plan.{all_ballots};
ghost use Rattle.meek_rule.specs.Rule.{Meek};
ghost use Rattle.meek_rule.specs.Weights.{votes};
ghost use Rattle.vote_spread.specs.declared.limits.TheConstants.{MOST_WORKERS};
ghost use Rattle.vote_spread.specs.Runs.{RunsLanes, CanSpread};

use crate::{Lanes, NoMemory};
use fixed_place::{Amounts, Keeps};
use frozen_plan::Plans;
use meek_rule::Spread;
use std::alloc::Global;

/// Distributes the ballots of plans by workers' lanes, which `run` runs.
#[derive(Drop)]
pub struct PlanSpread<const P: usize, F: Drop> {
    run: F,
    candidates: u32,
    total: u64,
    lanes: Lanes,
}

impl<const P: usize, F: Fn(&mut Lanes) + Drop> Spread<P> for PlanSpread<P, F> {
    ghost rule = { Meek };

    ghost ballots = { λ s. s.lanes.ballots };

    ghost candidates = { λ s. s.candidates };

    ghost can_spread = { λ s. CanSpread F.Fn (10 ^ P) s.candidates s.total s.lanes s.run };

    fn candidates(&self) -> u32 {
        self.candidates
    }

    fn ballots(&self) -> u64 {
        self.total
    }

    fn spread(&mut self, keeps: &Keeps<P>, tally: &mut Amounts<P>) {
        distribute(&self.run, &mut self.lanes, keeps, tally);
    }
}

impl<const P: usize, F: Fn(&mut Lanes) + Drop> PlanSpread<P, F> {
    /// A distribution of the ballots of plans by so many workers' lanes. All its memory is taken
    /// here. `run` is a closure that calls [`Lanes::run`] with the caller's threads and gate.
    pub fn begin(
        alloc: Global,
        plans: Plans,
        candidates: u32,
        workers: u32,
        run: F,
    ) -> Result<PlanSpread<P, F>, NoMemory>
        requires places { P ≤ 9 }
        requires workers { (1 ≤ workers) × (workers ≤ MOST_WORKERS) }
        requires plans { All (λ plan. plan.candidates ≡ candidates) plans }
        requires few { length (all_ballots plans) ≤ MOST_BALLOTS }
        requires runs { RunsLanes F.Fn (scale P) run }
        ensures can { IfOk result (λ s. CanSpread F.Fn (scale P) candidates s.total s.lanes s.run) }
        ensures candidates { IfOk result (λ s. s.candidates ≡ candidates) }
        ensures ballots { IfOk result (λ s. s.lanes.ballots ≡ all_ballots plans) }
        ensures run { IfOk result (λ s. s.run ≡ run) }
    {
        let lanes = Lanes::begin::<P>(alloc, plans, candidates, workers)?;
        Ok(PlanSpread::over(lanes, candidates, run))
    }

    /// A distribution by lanes that were begun over the ballots of so many candidates, which takes no
    /// memory. `run` is as for [`PlanSpread::begin`].
    pub fn over(lanes: Lanes, candidates: u32, run: F) -> PlanSpread<P, F>
        requires scale { lanes.scale ≡ scale P }
        requires lanes { length lanes.keeps ≡ candidates }
        requires runs { RunsLanes F.Fn (scale P) run }
        ensures can { CanSpread F.Fn (scale P) candidates result.total result.lanes result.run }
        ensures candidates { result.candidates ≡ candidates }
        ensures ballots { result.lanes.ballots ≡ lanes.ballots }
        ensures run { result.run ≡ run }
    {
        let total = lanes.ballots();
        PlanSpread {
            run,
            candidates,
            total,
            lanes,
        }
    }
}

/// Fills a tally with the votes at some keep values.
fn distribute<const P: usize, F: Fn(&mut Lanes)>(
    run: &F,
    lanes: &mut Lanes,
    keeps: &Keeps<P>,
    tally: &mut Amounts<P>,
)
    requires runs { RunsLanes F.Fn (scale P) run.now }
    requires scale { lanes.old.scale ≡ scale P }
    requires keeps_of_all { length keeps.now ≡ length lanes.old.keeps }
    requires votes_of_all { length tally.old ≡ length lanes.old.keeps }
    ensures votes { tally.new ≡ votes (scale P) keeps.now lanes.old.ballots (length keeps.now) }
    ensures same_scale { lanes.new.scale ≡ lanes.old.scale }
    ensures same_ballots { lanes.new.ballots ≡ lanes.old.ballots }
    ensures as_many { length lanes.new.keeps ≡ length lanes.old.keeps }
{
    lanes.load(keeps);
    run(lanes);
    lanes.gather(tally);
}
