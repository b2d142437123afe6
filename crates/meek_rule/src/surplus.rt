// What the elected have above a quota for each.
ghost use Rattle.std.specs.Prelude.{◌≡◌, ◌<◌, ◌≤◌, length, sum};
ghost use Rattle.plain_ballots.specs.declared.limits.TheConstants.{MOST_CANDIDATES};
ghost use Rattle.fixed_place.specs.Rounding.{most};
ghost use Rattle.meek_rule.specs.Surplus.{surplus, holds_seat};

use crate::states::is_elected;
use candidate_roll::States;
use fixed_place::{Amount, Amounts};
use lot_order::Flags;

/// What the elected have together, winners included, above a quota for each; 0 where it is less.
pub(crate) fn surplus_of<const P: usize>(
    states: &States,
    winners: &Flags,
    votes: &Amounts<P>,
    quota: Amount<P>,
) -> Amount<P>
    requires candidates { length states.now ≤ MOST_CANDIDATES }
    requires marks_of_all { length winners.now ≡ length states.now }
    requires votes_of_all { length votes.now ≡ length states.now }
    requires few { sum votes.now ≤ most P }
    ensures { result ≡ surplus states.now winners.now votes.now quota.entry }
{
    let share = quota.units();
    let mut held: u64 = 0;
    let mut places: u32 = 0;
    for p in 0..states.len() {
        if holds_seat(states, winners, p) {
            held += votes.get(p).units();
            places += 1;
        }
    }
    Amount::from_units((held as u128).saturating_sub(places as u128 * share as u128) as u64)
}

/// Whether the candidate at a place is elected, winners included.
fn holds_seat(states: &States, winners: &Flags, p: usize) -> bool
    requires states { p < length states.now }
    requires marks { p < length winners.now }
    ensures { result ≡ holds_seat states.now winners.now p }
{
    is_elected(states, p) || *winners.get(p)
}
