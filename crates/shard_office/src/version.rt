// What stood after a freeze.
ghost use Rattle.std.specs.Prelude.{◌≡◌, ◌≤◌, All, length};
ghost use Rattle.batch_core.specs.declared.limits.TheConstants.{MOST_STANDING};
ghost use Rattle.frozen_plan.specs.Plan.{all_ballots};

use frozen_plan::Plans;
use std::marker::Model;

/// What stood after a freeze, as one plan for each shard, who was struck until then, and the freeze's
/// place in the history. Its ballots are at most [`batch_core::MOST_STANDING`], few enough for a count.
#[derive(Debug, Drop)]
pub struct Version {
    pub(crate) at: u64,
    pub(crate) candidates: u32,
    pub(crate) plans: Plans,
    pub(crate) struck: Vec<u32>,
}

impl Model for Version {
    ghost use Rattle.std.specs.Prelude.{◌≡◌, ◌≤◌, All, length};
    ghost use Rattle.batch_core.specs.declared.limits.TheConstants.{MOST_STANDING};
    ghost use Rattle.frozen_plan.specs.Plan.{all_ballots};
    ghost use Rattle.frozen_version.specs.Versions.{VersionState};

    ghost Value = { VersionState };

    ghost view = { λ v. record { at = v.at; candidates = v.candidates; plans = v.plans; struck = v.struck.items } };

    ghost invariant = { λ v. All (λ plan. plan.candidates ≡ v.candidates) v.plans × (length (all_ballots v.plans) ≤ MOST_STANDING)
        × All (λ c. (1 ≤ c) × (c ≤ v.candidates)) v.struck.items };
}

impl Version {
    /// The place of the freeze in the history: how many calls there were, itself included.
    pub fn at(&self) -> u64
        ensures { result ≡ self.now.at }
    {
        self.at
    }

    /// The candidates struck before the freeze, each once, in the order of their first strikes.
    pub fn struck(&self) -> &[u32]
        ensures struck { result.now ≡ self.now.struck }
        ensures candidates { All (λ c. (1 ≤ c) × (c ≤ self.now.candidates)) result.now }
    {
        self.struck.as_slice()
    }

    /// One plan for each shard, that of shard s at index s - 1.
    pub fn into_plans(self) -> Plans
        ensures plans { result ≡ self.plans }
        ensures candidates { All (λ plan. plan.candidates ≡ self.candidates) result }
        ensures few { length (all_ballots result) ≤ MOST_STANDING }
    {
        self.plans
    }
}
