// What the sentences of an iteration say of lots and of the last seats, for who reads no sentences.
ghost use Rattle.std.specs.Prelude.{◌≡◌, ◌≤◌, length};
ghost use Rattle.std.specs.List.{list_any};
ghost use Rattle.plain_ballots.specs.declared.limits.TheConstants.{MOST_CANDIDATES};
ghost use Rattle.meek_rule.specs.Row.{HasRoomFor};
ghost use Rattle.sheet_words.specs.Facts.{by_lots, chooses, is_lot, last_seats};
ghost use Rattle.sheet_words.specs.Sentences.{decisions_of};

use crate::decisions::has_tie;
use crate::group::Group;
use crate::members::{elected_count, members};
use meek_rule::{Row, Step};

/// Whether the lots decided in an iteration: who of the tied is defeated, or who of those with equal votes is
/// elected.
pub fn is_by_lots<const P: usize>(row: &Row<P>) -> bool
    requires { HasRoomFor (length row.now.states) row.now }
    ensures { result ≡ by_lots row.now }
{
    lots_defeat(row) || (chooses(row) && members(row, Group::LeftByLot) != 0)
}

/// The seats that were left in an iteration for more candidates with the quota than these; 0 where there were
/// seats for all of them.
pub fn last_seats<const P: usize>(seats: u32, row: &Row<P>) -> u32
    requires room { HasRoomFor (length row.now.states) row.now }
    requires few { length row.now.states ≤ MOST_CANDIDATES }
    ensures { result ≡ last_seats seats row.now }
{
    if !chooses(row) {
        return 0;
    }
    seats.saturating_sub(elected_count(&row.states))
}

/// Whether the lots chose who of the tied is defeated.
fn lots_defeat<const P: usize>(row: &Row<P>) -> bool
    requires { HasRoomFor (length row.now.states) row.now }
    ensures { result ≡ list_any is_lot (decisions_of row.now) }
{
    match row.step {
        Step::Elected => false,
        Step::Iterate => false,
        Step::Defeat(_) => has_tie(row),
    }
}

/// Whether more have the quota than seats are left.
fn chooses<const P: usize>(row: &Row<P>) -> bool
    requires { HasRoomFor (length row.now.states) row.now }
    ensures { result ≡ chooses row.now }
{
    members(row, Group::Elected) != 0 && members(row, Group::LeftOut) != 0
}
