// Equal lines of a share that stand beside each other, made one.
ghost use Rattle.std.specs.Prelude.{◌≡◌, ℕ, ◌≤◌, length, take, true};
ghost use Rattle.plain_ballots.specs.declared.limits.TheConstants.{MOST_BALLOTS};
ghost use Rattle.packed_ballots.specs.Packed.{IsPacked, line_count, rest_of, rests};

use packed_ballots::{PackedLine, rank_at};
use plain_ballots::MOST_CANDIDATES;

/// Puts one line for all equal ones that stand beside each other to the front, and gives how many there
/// are then.
pub(crate) fn merge(ranks: &[u8], lines: &mut [PackedLine]) -> usize
    requires few { line_count lines.old ≤ MOST_BALLOTS }
    ensures within { result ≤ length lines.new }
    ensures sound { (n : ℕ) → IsPacked n ranks.now lines.old → IsPacked n ranks.now (take result lines.new) }
    ensures ballots { rests ranks.now 0 (take result lines.new) ≡ rests ranks.now 0 lines.old }
{
    if lines.len() == 0 {
        return 0;
    }
    let mut last = 0;
    for i in 1..lines.len() {
        let (one, line) = (lines[last], lines[i]);
        if are_equal(ranks, one, line) {
            let count = one.count + line.count;
            lines[last] = PackedLine { count, ..one };
            continue;
        }
        last += 1;
        lines[last] = line;
    }
    last + 1
}

/// Whether two lines have the same ranking. Where their fronts differ, the ranks are not looked at.
fn are_equal(ranks: &[u8], one: PackedLine, other: PackedLine) -> bool
    ensures { result ≡ true → rest_of ranks.now 0 one ≡ rest_of ranks.now 0 other }
{
    if one.front != other.front {
        return false;
    }
    for at in 0..MOST_CANDIDATES as u16 {
        let rank = rank_at(ranks, one, at);
        if rank != rank_at(ranks, other, at) {
            return false;
        }
        if rank == 0 {
            return true;
        }
    }
    false
}
