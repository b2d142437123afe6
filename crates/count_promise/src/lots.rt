// Where lots decided.
ghost use Rattle.std.specs.Prelude.{◌≡◌, ◌<◌, ◌≤◌, All, length};
ghost use Rattle.std.specs.List.{list_any};
ghost use Rattle.meek_rule.specs.Row.{HasRoomFor};
ghost use Rattle.count_promise.specs.Lots.{chosen_among, defeat_is_by_lot, elects, election_is_by_lot, is_by_lot, is_in, is_left_by_lot, is_left_out, is_seated_by_lot, leaves_out, some_elected_has, some_left_out_has};

use crate::Group;
use crate::measures::defeated;
use candidate_roll::State;
use meek_rule::{Row, Step};

/// Whether a lot decided anything in any iteration.
pub fn decides_any<const P: usize>(rows: &[Row<P>]) -> bool
    requires { All (λ row. HasRoomFor (length row.states) row) rows.now }
    ensures { result ≡ list_any is_by_lot rows.now }
{
    for row in rows {
        if is_by_lot(row) {
            return true;
        }
    }
    false
}

/// Those among whom a lot chose the candidate at a place in an iteration, where it chose it.
pub fn chosen_among<const P: usize>(row: &Row<P>, p: usize) -> Option<Group>
    requires room { HasRoomFor (length row.now.states) row.now }
    requires place { p < length row.now.states }
    ensures { result ≡ chosen_among row.now p }
{
    let _candidates = row.states.len();
    if defeat_is_by_lot(row) && defeated(row.step) as usize == p + 1 {
        return Some(Group::Tied);
    }
    if is_seated_by_lot(row, p) {
        return Some(Group::Left);
    }
    None
}

/// Whether a lot decided anything in an iteration.
fn is_by_lot<const P: usize>(row: &Row<P>) -> bool
    requires room { HasRoomFor (length row.now.states) row.now }
    ensures { result ≡ is_by_lot row.now }
{
    defeat_is_by_lot(row) || election_is_by_lot(row)
}

/// Whether more than one candidate was tied for a defeat.
pub(crate) fn defeat_is_by_lot<const P: usize>(row: &Row<P>) -> bool
    ensures { result ≡ defeat_is_by_lot row.now.step row.now }
{
    match row.step {
        Step::Elected => false,
        Step::Iterate => false,
        Step::Defeat(_) => row.tied.items().iter().filter(|mark| **mark).count() >= 2,
    }
}

/// Whether a lot chose who takes the last seats.
pub(crate) fn election_is_by_lot<const P: usize>(row: &Row<P>) -> bool
    requires room { HasRoomFor (length row.now.states) row.now }
    ensures { result ≡ election_is_by_lot row.now }
{
    for p in 0..row.states.len() {
        if is_seated_by_lot(row, p) {
            return true;
        }
    }
    false
}

/// Whether the candidate at a place belongs to a group.
pub fn is_in<const P: usize>(row: &Row<P>, group: Group, p: usize) -> bool
    requires room { HasRoomFor (length row.now.states) row.now }
    requires place { p < length row.now.states }
    ensures { result ≡ is_in row.now group p }
{
    match group {
        Group::Tied => *row.tied.get(p),
        Group::Seated => is_seated_by_lot(row, p),
        Group::Left => is_left_by_lot(row, p),
    }
}

fn is_seated_by_lot<const P: usize>(row: &Row<P>, p: usize) -> bool
    requires room { HasRoomFor (length row.now.states) row.now }
    requires place { p < length row.now.states }
    ensures { result ≡ is_seated_by_lot row.now p }
{
    *row.elected.get(p) && some_left_out_has(row, row.votes.get(p).units())
}

fn is_left_by_lot<const P: usize>(row: &Row<P>, p: usize) -> bool
    requires room { HasRoomFor (length row.now.states) row.now }
    requires place { p < length row.now.states }
    ensures { result ≡ is_left_by_lot row.now p }
{
    is_left_out(row, p) && some_elected_has(row, row.votes.get(p).units())
}

/// Whether somebody who was left out has this vote, or more.
fn some_left_out_has<const P: usize>(row: &Row<P>, vote: u64) -> bool
    requires room { HasRoomFor (length row.now.states) row.now }
    ensures { result ≡ some_left_out_has row.now vote }
{
    for p in 0..row.states.len() {
        if leaves_out(row, vote, p) {
            return true;
        }
    }
    false
}

/// Whether somebody who was elected has this vote, or less.
fn some_elected_has<const P: usize>(row: &Row<P>, vote: u64) -> bool
    requires room { HasRoomFor (length row.now.states) row.now }
    ensures { result ≡ some_elected_has row.now vote }
{
    for p in 0..row.states.len() {
        if elects(row, vote, p) {
            return true;
        }
    }
    false
}

/// Whether the candidate at a place was left out with this vote, or more.
fn leaves_out<const P: usize>(row: &Row<P>, vote: u64, p: usize) -> bool
    requires room { HasRoomFor (length row.now.states) row.now }
    requires place { p < length row.now.states }
    ensures { result ≡ leaves_out row.now vote p }
{
    is_left_out(row, p) && vote <= row.votes.get(p).units()
}

/// Whether the candidate at a place was elected with this vote, or less.
fn elects<const P: usize>(row: &Row<P>, vote: u64, p: usize) -> bool
    requires room { HasRoomFor (length row.now.states) row.now }
    requires place { p < length row.now.states }
    ensures { result ≡ elects row.now vote p }
{
    *row.elected.get(p) && row.votes.get(p).units() <= vote
}

/// Whether the candidate at a place has the quota, and is not elected for want of a seat.
fn is_left_out<const P: usize>(row: &Row<P>, p: usize) -> bool
    requires room { HasRoomFor (length row.now.states) row.now }
    requires place { p < length row.now.states }
    ensures { result ≡ is_left_out row.now p }
{
    let reached = matches!(row.states.get(p), State::Hopeful)
        && row.quota.units() <= row.votes.get(p).units();
    reached && !*row.elected.get(p)
}
