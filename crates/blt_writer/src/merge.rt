// Several plans walked at once.
ghost use Rattle.std.specs.Prelude.{◌≡◌, ◌≤◌, ◌<◌, ℕ, List, All, IfNone, IfSome, [], true, false, length, map, slice_index_or, sum_by};
ghost use Rattle.plain_ballots.specs.declared.limits.TheConstants.{MOST_BALLOTS};
ghost use Rattle.blt_writer.specs.Merge.{AreInOrder, IsLeast, TakesLeast, all_plain, had, is_ahead, left};
ghost use Rattle.blt_writer.specs.Merged.{WritesLines};
ghost use Rattle.plain_ballots.specs.declared.ballot_line.BallotLine.{BallotLine};

use crate::cursor::Cursor;
use crate::numbers::write_ballots;
use crate::ranks::Ranks;
use byte_edge::{Failed, Sink};

/// Writes the lines of all ballots that are still to come, the equal ones of all plans in one line.
pub(crate) fn write_merged<K: Sink>(
    cursors: &mut [Cursor],
    ranking: &mut Ranks,
    sink: &mut K,
) -> Result<(), Failed>
    requires order { AreInOrder cursors.old }
    requires few { length (all_plain cursors.old) ≤ MOST_BALLOTS }
    ensures lines { WritesLines K.written K.faults sink.old sink.new (all_plain cursors.old) result }
    ensures order { AreInOrder cursors.new }
    ensures few { length (all_plain cursors.new) ≤ MOST_BALLOTS }
{
    while let Some(count) = take_least(cursors, ranking) {
        write_ballots(count, ranking.items(), sink)?;
    }
    Ok(())
}

/// Takes the least ranking from all cursors that stand at it, and gives how many ballots have it. None
/// where all cursors are at their ends.
fn take_least(cursors: &mut [Cursor], ranking: &mut Ranks) -> Option<u64>
    requires few { length (all_plain cursors.old) ≤ MOST_BALLOTS }
    ensures least { IfSome result (λ count. TakesLeast ranking.new count cursors.old cursors.new) }
    ensures none { IfNone result (All (λ lines. lines ≡ []) cursors.old) }
    ensures kept { IfNone result (cursors.new ≡ cursors.old) }
{
    if !copy_least(cursors, ranking) {
        return None;
    }
    Some(take_all(cursors, ranking.items()))
}

/// Copies the least ranking at which a cursor stands, if there is one.
fn copy_least(cursors: &[Cursor], ranking: &mut Ranks) -> bool
    ensures least { result ≡ true → IsLeast ranking.new cursors.now }
    ensures none { result ≡ false → All (λ lines. lines ≡ []) cursors.now }
{
    if cursors.is_empty() {
        return false;
    }
    match cursors[first_ahead(cursors)].head() {
        Some(least) => {
            ranking.copy(least);
            true
        }
        None => false,
    }
}

/// Where a cursor stands that no other is ahead of.
fn first_ahead(cursors: &[Cursor]) -> usize
    requires { 1 ≤ length cursors.now }
    ensures inside { result < length cursors.now }
    ensures first { (d : List BallotLine) → All (λ lines. is_ahead lines (slice_index_or cursors.now result d) ≡ false) cursors.now }
{
    let mut first = 0;
    for at in 1..cursors.len() {
        if is_ahead(&cursors[at], &cursors[first]) {
            first = at;
        }
    }
    first
}

/// Whether the one cursor's next ranking is before the other's, if it has any.
fn is_ahead(one: &Cursor, other: &Cursor) -> bool
    ensures { result ≡ is_ahead one.now other.now }
{
    match (one.head(), other.head()) {
        (None, _) => false,
        (Some(_), None) => true,
        (Some(a), Some(b)) => a.cmp(b).is_lt(),
    }
}

/// Takes the ballots of a ranking from all cursors that stand at it, and gives how many these are.
fn take_all(cursors: &mut [Cursor], ranking: &[u16]) -> u64
    requires few { length (all_plain cursors.old) ≤ MOST_BALLOTS }
    ensures left { cursors.new ≡ map (left ranking.now) cursors.old }
    ensures count { result ≡ sum_by (had ranking.now) cursors.old }
{
    let mut count = 0;
    for cursor in cursors.iter_mut() {
        count += cursor.take(ranking);
    }
    count
}
