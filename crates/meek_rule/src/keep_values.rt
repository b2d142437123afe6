// The keep values of the elected after an iteration.
ghost use Rattle.std.specs.Prelude.{◌≡◌, ◌<◌, false, replicate, length};
ghost use Rattle.fixed_place.specs.Rounding.{scale};
ghost use Rattle.meek_rule.specs.KeepValues.{new_keeps, next_keep, capped, is_capped};

use crate::states::is_elected;
use candidate_roll::States;
use fixed_place::{Amount, Amounts, Keep, Keeps, div_up_capped, mul_up};
use lot_order::Flags;

/// Gives each elected candidate its next keep value, and marks the capped.
pub(crate) fn update_keeps<const P: usize>(
    states: &States,
    votes: &Amounts<P>,
    quota: Amount<P>,
    keeps: &mut Keeps<P>,
    marks: &mut Flags,
)
    requires votes_of_all { length votes.now ≡ length states.now }
    requires keeps_of_all { length keeps.old ≡ length states.now }
    requires marks_of_all { length marks.old ≡ length states.now }
    requires unmarked { marks.old ≡ replicate (length states.now) false }
    ensures keeps { keeps.new ≡ new_keeps (scale P) states.now keeps.old votes.now quota.entry }
    ensures capped { marks.new ≡ capped (scale P) states.now keeps.old votes.now quota.entry }
{
    for p in 0..states.len() {
        let (next, over) = next_keep(states, votes, quota, keeps, p);
        keeps.set(p, next);
        marks.set(p, over);
    }
}

/// The next keep value of the candidate at a place, and whether it is capped.
fn next_keep<const P: usize>(
    states: &States,
    votes: &Amounts<P>,
    quota: Amount<P>,
    keeps: &Keeps<P>,
    p: usize,
) -> (Keep<P>, bool)
    requires place { p < length states.now }
    requires votes_of_all { length votes.now ≡ length states.now }
    requires keeps_of_all { length keeps.now ≡ length states.now }
    ensures keep { result.0 ≡ next_keep (scale P) states.now keeps.now votes.now quota.entry p }
    ensures capped { result.1 ≡ is_capped (scale P) states.now keeps.now votes.now quota.entry p }
{
    let keep = *keeps.get(p);
    let vote = *votes.get(p);
    if is_elected(states, p) && vote.units() > 0 {
        div_up_capped(mul_up(quota, keep), vote)
    } else {
        (keep, false)
    }
}
