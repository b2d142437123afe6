// A distribution of the ballots of plans at prices.
ghost use Rattle.std.specs.Prelude.{◌≡◌, ◌≤◌, ◌<◌, ◌^◌, ℕ, All, IfOk, length, replicate, slice_index};
ghost use Rattle.plain_ballots.specs.declared.limits.TheConstants.{MOST_BALLOTS};
ghost use Rattle.fixed_place.specs.Rounding.{scale};
ghost use Rattle.frozen_plan.specs.Plan.{all_ballots};
ghost use Rattle.meek_rule.specs.Rule.{Warren};
ghost use Rattle.meek_rule.specs.Weights.{votes_under};

use crate::NoMemory;
use crate::pay::pay_plans;
use fixed_place::{Amount, Amounts, Keeps, scale_of};
use frozen_plan::{Plan, Plans};
use meek_rule::Spread;
use std::alloc::Global;
use std::marker::Model;

/// Distributes the ballots of plans by Warren's rule: each ballot pays each of its candidates, in
/// order of rank, the candidate's price, or all that it has left where that is less.
#[derive(Drop)]
pub struct WarrenSpread {
    candidates: u32,
    total: u64,
    plans: Plans,
    /// The price of each candidate in this distribution, and what it was paid.
    prices: Vec<u64>,
    sums: Vec<u64>,
}

impl Model for WarrenSpread {
    ghost use Rattle.std.specs.Prelude.{◌≡◌, ◌≤◌, All, length};
    ghost use Rattle.plain_ballots.specs.declared.limits.TheConstants.{MOST_BALLOTS};
    ghost use Rattle.frozen_plan.specs.Plan.{all_ballots};
    ghost use Rattle.warren_spread.specs.Seen.{Seen};

    ghost Value = { Seen };

    ghost view = { λ s. record { candidates = s.candidates; ballots = all_ballots s.plans } };

    ghost invariant = { λ s.
        All (λ plan. plan.candidates ≡ s.candidates) s.plans
        × (s.total ≡ length (all_ballots s.plans)) × (s.total ≤ MOST_BALLOTS)
        × (length s.prices.items ≡ s.candidates) × (length s.sums.items ≡ s.candidates) };
}

impl WarrenSpread {
    /// A distribution of the ballots of plans. All its memory is taken here.
    pub fn begin(alloc: Global, plans: Plans, candidates: u32) -> Result<WarrenSpread, NoMemory>
        requires plans { All (λ plan. plan.candidates ≡ candidates) plans }
        requires few { length (all_ballots plans) ≤ MOST_BALLOTS }
        ensures candidates { IfOk result (λ s. s.candidates ≡ candidates) }
        ensures ballots { IfOk result (λ s. s.ballots ≡ all_ballots plans) }
    {
        let total = total_of(&plans);
        let prices = zeros(alloc, candidates as usize)?;
        let sums = zeros(alloc, candidates as usize)?;
        Ok(WarrenSpread {
            candidates,
            total,
            plans,
            prices,
            sums,
        })
    }
}

impl<const P: usize> Spread<P> for WarrenSpread {
    ghost rule = { Warren };

    ghost ballots = { λ s. s.ballots };

    ghost candidates = { λ s. s.candidates };

    ghost can_spread = { λ _. Unit {0} };

    fn candidates(&self) -> u32 {
        self.candidates
    }

    fn ballots(&self) -> u64 {
        self.total
    }

    fn spread(&mut self, prices: &Keeps<P>, tally: &mut Amounts<P>) {
        load(prices, self.prices.as_mut_slice());
        distribute::<P>(
            self.plans.items(),
            self.prices.as_slice(),
            self.sums.as_mut_slice(),
            tally,
        );
    }
}

/// How many ballots all plans have.
fn total_of(plans: &Plans) -> u64
    requires { length (all_ballots plans.now) ≤ MOST_BALLOTS }
    ensures { result ≡ length (all_ballots plans.now) }
{
    let mut total = 0;
    for plan in plans.items() {
        total += plan.total();
    }
    total
}

fn zeros(alloc: Global, len: usize) -> Result<Vec<u64>, NoMemory>
    requires { len < 2 ^ 32 }
    ensures { IfOk result (λ list. list.items ≡ replicate len 0) }
{
    let Ok(mut list) = Vec::with_capacity(alloc, len) else {
        return Err(NoMemory);
    };
    match list.resize(len, 0) {
        Ok(()) => Ok(list),
        Err(_) => Err(NoMemory),
    }
}

/// Writes the prices down as plain numbers.
fn load<const P: usize>(prices: &Keeps<P>, plain: &mut [u64])
    requires { length prices.now ≡ length plain.old }
    ensures prices { plain.new ≡ prices.now }
    ensures at_most_one { All (λ k. k ≤ scale P) plain.new }
    ensures places { (6 ≤ P) × (P ≤ 9) }
{
    for p in 0..prices.len() {
        plain[p] = prices.get(p).units();
    }
}

/// Fills a tally with the votes at some prices.
fn distribute<const P: usize>(
    plans: &[Plan],
    prices: &[u64],
    sums: &mut [u64],
    tally: &mut Amounts<P>,
)
    requires places { (6 ≤ P) × (P ≤ 9) }
    requires plans { All (λ plan. plan.candidates ≡ length sums.old) plans.now }
    requires few { length (all_ballots plans.now) ≤ MOST_BALLOTS }
    requires prices_of_all { length prices.now ≡ length sums.old }
    requires at_most_one { All (λ k. k ≤ scale P) prices.now }
    requires votes_of_all { length tally.old ≡ length sums.old }
    ensures votes { tally.new ≡ votes_under Warren (scale P) prices.now (all_ballots plans.now) (length sums.old) }
    ensures same_length { length sums.new ≡ length sums.old }
{
    clear(sums);
    pay_plans(plans, scale_of::<P>(), prices, sums);
    for p in 0..tally.len() {
        tally.set(p, Amount::from_units(sums[p]));
    }
}

fn clear(sums: &mut [u64])
    ensures same_length { length sums.new ≡ length sums.old }
    ensures zero { (p : ℕ) → p < length sums.old → slice_index sums.new p ≡ 0 }
{
    sums.fill(0);
}
