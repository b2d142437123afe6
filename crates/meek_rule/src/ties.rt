// Who is tied for defeat.
ghost use Rattle.std.specs.Prelude.{◌≡◌, ◌<◌, length};
ghost use Rattle.meek_rule.specs.Ties.{tied, is_tied};
ghost use Rattle.meek_rule.specs.LowestVote.{IsLowestHopeful};

use crate::states::is_hopeful;
use candidate_roll::States;
use fixed_place::{Amount, Amounts};
use lot_order::Flags;

/// Marks the tied: the hopeful that are above the lowest hopeful vote by at most the surplus.
pub(crate) fn mark_tied<const P: usize>(
    states: &States,
    votes: &Amounts<P>,
    surplus: Amount<P>,
    marks: &mut Flags,
)
    requires votes_of_all { length votes.now ≡ length states.now }
    requires marks_of_all { length marks.old ≡ length states.now }
    ensures { marks.new ≡ tied states.now votes.now surplus.entry }
{
    let lowest = lowest_hopeful(states, votes);
    for p in 0..states.len() {
        marks.set(p, is_tied(states, votes, surplus, lowest, p));
    }
}

/// The lowest vote of a hopeful candidate; the greatest number where nobody is hopeful.
fn lowest_hopeful<const P: usize>(states: &States, votes: &Amounts<P>) -> u64
    requires votes_of_all { length votes.now ≡ length states.now }
    ensures { IsLowestHopeful states.now votes.now result }
{
    let _bound = votes.len();
    let mut lowest = u64::MAX;
    for p in 0..states.len() {
        if is_hopeful(states, p) {
            lowest = lowest.min(votes.get(p).units());
        }
    }
    lowest
}

/// Whether the candidate at a place is tied.
fn is_tied<const P: usize>(
    states: &States,
    votes: &Amounts<P>,
    surplus: Amount<P>,
    lowest: u64,
    p: usize,
) -> bool
    requires votes_of_all { length votes.now ≡ length states.now }
    requires lowest { IsLowestHopeful states.now votes.now lowest }
    requires place { p < length states.now }
    ensures { result ≡ is_tied states.now votes.now surplus.entry p }
{
    is_hopeful(states, p) && votes.get(p).units() - lowest <= surplus.units()
}
