// The candidates of an iteration that a sentence names.
ghost use Rattle.std.specs.Prelude.{◌≡◌, ◌-◌, ◌<◌, ◌≤◌, length};
ghost use Rattle.std.specs.List.{list_any};
ghost use Rattle.plain_ballots.specs.declared.limits.TheConstants.{MOST_CANDIDATES};
ghost use Rattle.meek_rule.specs.Row.{HasRoomFor};
ghost use Rattle.meek_rule.specs.Situation.{elected_count};
ghost use Rattle.sheet_words.specs.Groups.{is_in, is_passed_by_lot, is_passed_over, members, members_from, all_places, reaches, wins_with};

use crate::group::Group;
use candidate_roll::{State, States};
use meek_rule::Row;

/// Whether the candidate at a place is of a group.
pub(crate) fn is_in<const P: usize>(row: &Row<P>, group: Group, p: usize) -> bool
    requires room { HasRoomFor (length row.now.states) row.now }
    requires place { p < length row.now.states }
    ensures { result ≡ is_in row.now group p }
{
    match group {
        Group::Reached => reaches(row, p),
        Group::Elected => *row.elected.get(p),
        Group::LeftOut => is_passed_over(row, p),
        Group::LeftByLot => is_passed_by_lot(row, p),
        Group::Capped => *row.capped.get(p),
        Group::Tied => *row.tied.get(p),
    }
}

/// How many a group has.
pub(crate) fn members<const P: usize>(row: &Row<P>, group: Group) -> usize
    requires room { HasRoomFor (length row.now.states) row.now }
    ensures { result ≡ members row.now group }
{
    members_from(row, group, 0)
}

/// How many of a group stand at a place or after it.
pub(crate) fn members_from<const P: usize>(row: &Row<P>, group: Group, first: usize) -> usize
    requires room { HasRoomFor (length row.now.states) row.now }
    ensures { result ≡ members_from row.now group first }
{
    let mut count = 0;
    for p in first..row.states.len() {
        if is_in(row, group, p) {
            count += 1;
        }
    }
    count
}

/// Whether the candidate at a place has the quota.
fn reaches<const P: usize>(row: &Row<P>, p: usize) -> bool
    requires room { HasRoomFor (length row.now.states) row.now }
    requires place { p < length row.now.states }
    ensures { result ≡ reaches row.now p }
{
    matches!(row.states.get(p), State::Hopeful) && row.quota.units() <= row.votes.get(p).units()
}

/// Whether the candidate at a place has the quota, and is not elected for want of a seat.
fn is_passed_over<const P: usize>(row: &Row<P>, p: usize) -> bool
    requires room { HasRoomFor (length row.now.states) row.now }
    requires place { p < length row.now.states }
    ensures { result ≡ is_passed_over row.now p }
{
    reaches(row, p) && !*row.elected.get(p)
}

/// Whether the candidate at a place is passed over with as many votes as somebody who is elected.
fn is_passed_by_lot<const P: usize>(row: &Row<P>, p: usize) -> bool
    requires room { HasRoomFor (length row.now.states) row.now }
    requires place { p < length row.now.states }
    ensures { result ≡ is_passed_by_lot row.now p }
{
    is_passed_over(row, p) && some_winner_with(row, row.votes.get(p).units())
}

/// Whether somebody is elected with just this vote.
fn some_winner_with<const P: usize>(row: &Row<P>, vote: u64) -> bool
    requires room { HasRoomFor (length row.now.states) row.now }
    ensures { result ≡ list_any (wins_with row.now vote) (all_places (length row.now.states)) }
{
    for p in 0..row.states.len() {
        if wins_with(row, vote, p) {
            return true;
        }
    }
    false
}

/// Whether the candidate at a place is elected with just this vote.
fn wins_with<const P: usize>(row: &Row<P>, vote: u64, p: usize) -> bool
    requires room { HasRoomFor (length row.now.states) row.now }
    requires place { p < length row.now.states }
    ensures { result ≡ wins_with row.now vote p }
{
    *row.elected.get(p) && row.votes.get(p).units() == vote
}

/// How many are elected.
pub(crate) fn elected_count(states: &States) -> u32
    requires { length states.now ≤ MOST_CANDIDATES }
    ensures { result ≡ elected_count states.now }
{
    states
        .items()
        .iter()
        .filter(|state| matches!(state, State::Elected))
        .count() as u32
}
