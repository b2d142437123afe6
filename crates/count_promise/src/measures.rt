// What an iteration leaves over.
ghost use Rattle.std.specs.Prelude.{◌≡◌, ◌*◌, ◌^◌, ◌<◌, ◌≤◌, length, option_map};
ghost use Rattle.plain_ballots.specs.declared.limits.TheConstants.{MOST_CANDIDATES};
ghost use Rattle.meek_rule.specs.Row.{HasRoomFor};
ghost use Rattle.meek_rule.specs.Surplus.{holds_seat};
ghost use Rattle.rule_laws.specs.Orderly.{shortfalls};
ghost use Rattle.count_promise.specs.Left.{defeated, first_defeat, is_defeat_of, lack_at, surplus_at};

use candidate_roll::State;
use meek_rule::{Row, Step};

/// The surplus at a defeat, and 0 in another iteration.
pub(crate) fn surplus_at<const P: usize>(row: &Row<P>) -> u64
    ensures { result ≡ surplus_at row.now.step row.now }
{
    match row.step {
        Step::Elected => 0,
        Step::Iterate => 0,
        Step::Defeat(_) => row.surplus.units(),
    }
}

/// What those who hold seats lack of their quotas together, where somebody is elected or defeated.
pub(crate) fn lack_at<const P: usize>(row: &Row<P>) -> u128
    requires room { HasRoomFor (length row.now.states) row.now }
    requires few { length row.now.states ≤ MOST_CANDIDATES }
    ensures value { result ≡ lack_at row.now.step row.now }
    ensures bound { result ≤ 10 ^ 22 }
{
    match row.step {
        Step::Elected => shortfalls(row),
        Step::Iterate => 0,
        Step::Defeat(_) => shortfalls(row),
    }
}

/// What those who hold seats, winners included, lack of a quota, each for itself, together.
fn shortfalls<const P: usize>(row: &Row<P>) -> u128
    requires room { HasRoomFor (length row.now.states) row.now }
    requires few { length row.now.states ≤ MOST_CANDIDATES }
    ensures value { result ≡ shortfalls row.now }
    ensures bound { result ≤ 10 ^ 22 }
{
    let quota = row.quota.units();
    let mut lack: u128 = 0;
    for p in 0..row.states.len() {
        if holds_seat(row, p) {
            lack += quota.saturating_sub(row.votes.get(p).units()) as u128;
        }
    }
    lack
}

/// Whether the candidate at a place is elected, winners included.
fn holds_seat<const P: usize>(row: &Row<P>, p: usize) -> bool
    requires room { HasRoomFor (length row.now.states) row.now }
    requires place { p < length row.now.states }
    ensures { result ≡ holds_seat row.now.states row.now.elected p }
{
    matches!(row.states.get(p), State::Elected) || *row.elected.get(p)
}

/// The number of whom a step defeats, 0 where it defeats nobody.
pub fn defeated(step: Step) -> u32
    ensures { result ≡ defeated step }
{
    match step {
        Step::Elected => 0,
        Step::Iterate => 0,
        Step::Defeat(candidate) => candidate,
    }
}

/// The first iteration that defeats somebody with a surplus of at least so many units.
pub fn first_defeat<const P: usize>(rows: &[Row<P>], least: u64) -> Option<&Row<P>>
    ensures { option_map (λ row. row.now) result ≡ first_defeat least rows.now }
{
    for row in rows {
        if is_defeat_of(row, least) {
            return Some(row);
        }
    }
    None
}

fn is_defeat_of<const P: usize>(row: &Row<P>, least: u64) -> bool
    ensures { result ≡ is_defeat_of least row.now }
{
    match row.step {
        Step::Elected => false,
        Step::Iterate => false,
        Step::Defeat(_) => least <= row.surplus.units(),
    }
}
