// Who has a bar in the picture of a round, and where.
ghost use Rattle.std.specs.Prelude.{◌≡◌, ◌+◌, ◌*◌, ◌^◌, ◌<◌, ◌≤◌, length, nat_eq};
ghost use Rattle.plain_ballots.specs.declared.limits.TheConstants.{MOST_CANDIDATES};
ghost use Rattle.fixed_place.specs.Rounding.{most};
ghost use Rattle.meek_rule.specs.Row.{HasRoomFor};
ghost use Rattle.sheet_page.specs.Bars.{bars_before, bars_of, comes_before, has_bar, rest_count, rest_vote, rest_votes, standing_count, stands};

use meek_rule::Row;

/// The most bars of a picture.
const MOST_BARS: usize = 24;

/// Whether the candidate at a place keeps anything in an iteration.
fn stands<const P: usize>(row: &Row<P>, p: usize) -> bool
    requires room { HasRoomFor (length row.now.states) row.now }
    requires place { p < length row.now.states }
    ensures { result ≡ stands row.now p }
{
    !is_nothing(row.keeps.get(p).units())
}

/// Whether so many units are none.
pub(crate) fn is_nothing(units: u64) -> bool
    ensures { result ≡ nat_eq units 0 }
{
    units == 0
}

/// Whether the candidate at place `q` stands, and comes before the one at `p`.
fn comes_before<const P: usize>(row: &Row<P>, p: usize, q: usize) -> bool
    requires room { HasRoomFor (length row.now.states) row.now }
    requires place { p < length row.now.states }
    requires other { q < length row.now.states }
    ensures { result ≡ comes_before row.now p q }
{
    let here = row.votes.get(p).units();
    let there = row.votes.get(q).units();
    stands(row, q) && (here < there || (here == there && q < p))
}

/// How many come before the candidate at a place.
pub(crate) fn bars_before<const P: usize>(row: &Row<P>, p: usize) -> usize
    requires room { HasRoomFor (length row.now.states) row.now }
    requires place { p < length row.now.states }
    ensures count { result ≡ bars_before row.now p }
    ensures few { result ≤ length row.now.votes }
{
    let mut count = 0;
    for q in 0..row.votes.len() {
        if comes_before(row, p, q) {
            count += 1;
        }
    }
    count
}

/// Whether the candidate at a place has a bar.
pub(crate) fn has_bar<const P: usize>(row: &Row<P>, p: usize) -> bool
    requires room { HasRoomFor (length row.now.states) row.now }
    requires place { p < length row.now.states }
    ensures { result ≡ has_bar row.now p }
{
    stands(row, p) && bars_before(row, p) < MOST_BARS
}

/// How many candidates stand in a round.
fn standing_count<const P: usize>(row: &Row<P>) -> usize
    requires room { HasRoomFor (length row.now.states) row.now }
    ensures count { result ≡ standing_count row.now }
    ensures few { result ≤ length row.now.votes }
{
    let mut count = 0;
    for p in 0..row.votes.len() {
        if stands(row, p) {
            count += 1;
        }
    }
    count
}

/// How many bars the picture of a round has.
pub(crate) fn bars_of<const P: usize>(row: &Row<P>) -> usize
    requires room { HasRoomFor (length row.now.states) row.now }
    ensures count { result ≡ bars_of row.now }
    ensures few { result ≤ 24 }
{
    standing_count(row).min(MOST_BARS)
}

/// How many stand and have no bar.
pub(crate) fn rest_count<const P: usize>(row: &Row<P>) -> usize
    requires room { HasRoomFor (length row.now.states) row.now }
    ensures { result ≡ rest_count row.now }
{
    standing_count(row).saturating_sub(MOST_BARS)
}

/// The vote of the candidate at a place, in units, if it stands and has no bar.
fn rest_vote<const P: usize>(row: &Row<P>, p: usize) -> u64
    requires room { HasRoomFor (length row.now.states) row.now }
    requires place { p < length row.now.states }
    ensures vote { result ≡ rest_vote row.now p }
    ensures bound { result ≤ most P }
{
    if stands(row, p) && !has_bar(row, p) {
        row.votes.get(p).units()
    } else {
        0
    }
}

/// The votes together, in units, of those who stand and have no bar.
pub(crate) fn rest_votes<const P: usize>(row: &Row<P>) -> u128
    requires room { HasRoomFor (length row.now.states) row.now }
    requires few { length row.now.votes ≤ MOST_CANDIDATES }
    ensures sum { result ≡ rest_votes row.now }
    ensures bound { result < 10 ^ (P + 18) }
{
    let mut sum = 0;
    for p in 0..row.votes.len() {
        sum += u128::from(rest_vote(row, p));
    }
    sum
}
