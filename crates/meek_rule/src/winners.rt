// Who is elected in an iteration.
ghost use Rattle.std.specs.Prelude.{◌≡◌, ◌&&◌, ◌<◌, ◌≤◌, length};
ghost use Rattle.plain_ballots.specs.declared.limits.TheConstants.{MOST_CANDIDATES};
ghost use Rattle.meek_rule.specs.Places.{each_place, marked_count};
ghost use Rattle.meek_rule.specs.Quota.{has_reached};
ghost use Rattle.meek_rule.specs.Winners.{AreWinners, comes_before};
ghost use Rattle.meek_rule.specs.Precedence.{has_won, count_before};
ghost use Rattle.meek_rule.specs.Iteration.{elect};

use crate::states::is_hopeful;
use candidate_roll::{State, States};
use fixed_place::{Amount, Amounts};
use lot_order::{Flags, Lots};

/// Marks the winners among the hopeful: all that have the quota where there is room for them, and
/// otherwise those before whom few come.
pub(crate) fn mark_winners<const P: usize>(
    states: &States,
    votes: &Amounts<P>,
    quota: Amount<P>,
    free: u32,
    lots: &Lots,
    marks: &mut Flags,
)
    requires candidates { length states.now ≤ MOST_CANDIDATES }
    requires votes_of_all { length votes.now ≡ length states.now }
    requires lots_of_all { length lots.now ≡ length states.now }
    requires marks_of_all { length marks.old ≡ length states.now }
    ensures { AreWinners states.now free votes.now lots.now quota.entry marks.new }
{
    mark_reached(states, votes, quota, marks);
    if count_marked(marks) > free as usize {
        mark_first(states, votes, quota, free, lots, marks);
    }
}

/// Marks all that have the quota.
fn mark_reached<const P: usize>(
    states: &States,
    votes: &Amounts<P>,
    quota: Amount<P>,
    marks: &mut Flags,
)
    requires votes_of_all { length votes.now ≡ length states.now }
    requires marks_of_all { length marks.old ≡ length states.now }
    ensures { marks.new ≡ each_place (length states.now) (has_reached states.now votes.now quota.entry) }
{
    for p in 0..states.len() {
        marks.set(p, has_reached(states, votes, quota, p));
    }
}

/// Marks those that have the quota and before whom fewer come than there are seats left.
fn mark_first<const P: usize>(
    states: &States,
    votes: &Amounts<P>,
    quota: Amount<P>,
    free: u32,
    lots: &Lots,
    marks: &mut Flags,
)
    requires candidates { length states.now ≤ MOST_CANDIDATES }
    requires votes_of_all { length votes.now ≡ length states.now }
    requires lots_of_all { length lots.now ≡ length states.now }
    requires marks_of_all { length marks.old ≡ length states.now }
    ensures { AreWinners states.now free votes.now lots.now quota.entry marks.new }
{
    let _order = lots.candidates();
    for p in 0..states.len() {
        marks.set(p, has_won(states, votes, quota, free, lots, p));
    }
}

/// Whether the candidate at a place has the quota, and so few that have it come before it that a seat is left.
fn has_won<const P: usize>(
    states: &States,
    votes: &Amounts<P>,
    quota: Amount<P>,
    free: u32,
    lots: &Lots,
    p: usize,
) -> bool
    requires candidates { length states.now ≤ MOST_CANDIDATES }
    requires votes_of_all { length votes.now ≡ length states.now }
    requires lots_of_all { length lots.now ≡ length states.now }
    requires place { p < length states.now }
    ensures { result ≡ has_won states.now free votes.now lots.now quota.entry p }
{
    has_reached(states, votes, quota, p) && count_before(states, votes, quota, lots, p) < free
}

/// Whether the candidate at a place is hopeful and has the quota.
fn has_reached<const P: usize>(
    states: &States,
    votes: &Amounts<P>,
    quota: Amount<P>,
    p: usize,
) -> bool
    requires states { p < length states.now }
    requires votes { p < length votes.now }
    ensures { result ≡ has_reached states.now votes.now quota.entry p }
{
    is_hopeful(states, p) && votes.get(p).units() >= quota.units()
}

/// How many of those that have the quota come before the candidate at a place.
fn count_before<const P: usize>(
    states: &States,
    votes: &Amounts<P>,
    quota: Amount<P>,
    lots: &Lots,
    p: usize,
) -> u32
    requires candidates { length states.now ≤ MOST_CANDIDATES }
    requires votes_of_all { length votes.now ≡ length states.now }
    requires lots_of_all { length lots.now ≡ length states.now }
    requires place { p < length states.now }
    ensures value { result ≡ count_before states.now votes.now lots.now quota.entry p }
    ensures bound { result ≤ MOST_CANDIDATES }
{
    let mut count = 0;
    for b in 0..states.len() {
        if is_ahead(states, votes, quota, lots, b, p) {
            count += 1;
        }
    }
    count
}

/// Whether the candidate at place `b` has the quota and comes before that at place `p`.
fn is_ahead<const P: usize>(
    states: &States,
    votes: &Amounts<P>,
    quota: Amount<P>,
    lots: &Lots,
    b: usize,
    p: usize,
) -> bool
    requires votes_of_all { length votes.now ≡ length states.now }
    requires lots_of_all { length lots.now ≡ length states.now }
    requires place { p < length states.now }
    requires other_place { b < length states.now }
    ensures { result ≡ (has_reached states.now votes.now quota.entry b && comes_before votes.now lots.now b p) }
{
    has_reached(states, votes, quota, b) && comes_before(votes, lots, b, p)
}

/// Whether the candidate at place `a` comes before that at place `b`.
fn comes_before<const P: usize>(votes: &Amounts<P>, lots: &Lots, a: usize, b: usize) -> bool
    requires lots_of_all { length lots.now ≡ length votes.now }
    requires first { a < length votes.now }
    requires second { b < length votes.now }
    ensures { result ≡ comes_before votes.now lots.now a b }
{
    let count = lots.candidates();
    let mine = votes.get(a).units();
    let other = votes.get(b).units();
    mine > other || (mine == other && lots.later(a as u32 + 1, b as u32 + 1))
}

/// Makes the winners elected.
pub(crate) fn elect(states: &mut States, winners: &Flags)
    requires { length winners.now ≡ length states.old }
    ensures { states.new ≡ elect states.old winners.now }
{
    for p in 0..winners.len() {
        if *winners.get(p) {
            states.set(p, State::Elected);
        }
    }
}

/// How many are marked.
pub(crate) fn count_marked(marks: &Flags) -> usize
    ensures { result ≡ marked_count marks.now }
{
    marks.items().iter().filter(|mark| **mark).count()
}
