// What the ballots of plans pay.
ghost use Rattle.std.specs.Prelude.{◌≡◌, ◌+◌, ◌<◌, ◌≤◌, ℕ, List, All, drop, length, slice_index};
ghost use Rattle.frozen_plan.specs.Plan.{all_ballots, plan_ballots};
ghost use Rattle.warren_spread.specs.Paid.{paid, row_ballots, AreSiblings, AreParted};

use frozen_plan::{Plan, PlanRow};

/// Adds to each candidate's sum what the ballots of plans pay to it, each of which has one vote, of so
/// many units.
pub(crate) fn pay_plans(plans: &[Plan], vote: u64, prices: &[u64], sums: &mut [u64])
    requires plans { All (λ plan. plan.candidates ≡ length sums.old) plans.now }
    requires price_of_each { length prices.now ≡ length sums.old }
    requires room { (p : ℕ) → p < length sums.old → slice_index sums.old p + paid prices.now vote (all_ballots plans.now) (p + 1) ≤ 1000000000000000000 }
    ensures same_length { length sums.new ≡ length sums.old }
    ensures paid { (p : ℕ) → p < length sums.old → slice_index sums.new p ≡ slice_index sums.old p + paid prices.now vote (all_ballots plans.now) (p + 1) }
{
    for plan in plans {
        pay(behind_root(plan), vote, prices, sums);
    }
}

/// The rows below a plan's root.
fn behind_root(plan: &Plan) -> &[PlanRow]
    ensures siblings { AreSiblings plan.now.candidates result.now }
    ensures ballots { (rest c : ℕ) (prices : List ℕ) → paid prices rest (row_ballots result.now) c ≡ paid prices rest (plan_ballots plan.now.rows) c }
{
    behind_first(plan.rows())
}

/// The first of some siblings, the rows below it, and its next siblings with those below them.
fn parted(rows: &[PlanRow]) -> (PlanRow, &[PlanRow], &[PlanRow])
    requires siblings { (n : ℕ) × AreSiblings n rows.now }
    requires some { 1 ≤ length rows.now }
    ensures { (n : ℕ) → AreSiblings n rows.now → AreParted n rows.now result.0 result.1.now result.2.now }
{
    let node = rows[0];
    let (below, behind) = behind_first(rows).split_at(node.skip as usize - 1);
    (node, below, behind)
}

fn behind_first(rows: &[PlanRow]) -> &[PlanRow]
    requires { 1 ≤ length rows.now }
    ensures { result.now ≡ drop 1 rows.now }
{
    &rows[1..]
}

/// Adds what the ballots of siblings and of all below them pay, each of which has `rest` left. Of
/// nothing nothing is paid, so no node is looked at below a candidate that takes all.
#[cycle(pay)]
fn pay(rows: &[PlanRow], rest: u64, prices: &[u64], sums: &mut [u64])
    requires rows { AreSiblings (length sums.old) rows.now }
    requires price_of_each { length prices.now ≡ length sums.old }
    requires room { (p : ℕ) → p < length sums.old → slice_index sums.old p + paid prices.now rest (row_ballots rows.now) (p + 1) ≤ 1000000000000000000 }
    ensures same_length { length sums.new ≡ length sums.old }
    ensures paid { (p : ℕ) → p < length sums.old → slice_index sums.new p ≡ slice_index sums.old p + paid prices.now rest (row_ballots rows.now) (p + 1) }
{
    if rest == 0 {
        return;
    }
    let mut siblings = rows;
    while siblings.len() > 0 {
        let (node, below, behind) = parted(siblings);
        let place = node.candidate as usize - 1;
        let part = rest.min(prices[place]);
        sums[place] += node.ballots as u64 * part;
        pay(below, rest - part, prices, sums);
        siblings = behind;
    }
}
