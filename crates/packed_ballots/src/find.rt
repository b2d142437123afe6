// A line that has a ranking.
ghost use Rattle.std.specs.Prelude.{◌≡◌, ◌≤◌, All, IfSome, drop, true};
ghost use Rattle.plain_ballots.specs.declared.limits.TheConstants.{MOST_CANDIDATES};
ghost use Rattle.packed_ballots.specs.Fronts.{AreNumbers};
ghost use Rattle.packed_ballots.specs.Packed.{IsPacked, HasAt, front_of, rest_of, until_zero};

use crate::PackedLine;

/// The place of a line that has these ranks, if one of these seats has it. A seat of no line ends the search.
#[inline]
pub(crate) fn place_of(
    bytes: &[u8],
    lines: &[PackedLine],
    seats: &[u32],
    front: u64,
    ranks: &[u32],
) -> Option<usize>
    requires packed { IsPacked MOST_CANDIDATES bytes.now lines.now }
    requires ranks { AreNumbers ranks.now }
    requires front { front ≡ front_of ranks.now }
    ensures { IfSome result (HasAt bytes.now lines.now ranks.now) }
{
    for seat in seats {
        let place = (*seat as usize).wrapping_sub(1);
        if place >= lines.len() {
            return None;
        }
        let line = lines[place];
        if line.front == front && has_ranks(bytes, line, ranks) {
            return Some(place);
        }
    }
    None
}

/// Whether a line has these ranks, whose front it has.
#[inline]
fn has_ranks(bytes: &[u8], line: PackedLine, ranks: &[u32]) -> bool
    requires own { AreNumbers (rest_of bytes.now 0 line) }
    requires front { line.front ≡ front_of (rest_of bytes.now 0 line) }
    requires ranks { AreNumbers ranks.now }
    requires same { line.front ≡ front_of ranks.now }
    ensures { result ≡ true → rest_of bytes.now 0 line ≡ ranks.now }
{
    if line.front % 256 == 0 {
        return true;
    }
    match ranks.get(8..) {
        Some(others) => stand_at(bytes, line.start as usize + 8, others),
        None => false,
    }
}

/// Whether these ranks stand among the bytes from a place on, and a 0 after them.
fn stand_at(bytes: &[u8], from: usize, ranks: &[u32]) -> bool
    requires { All (λ rank. 1 ≤ rank) ranks.now }
    ensures { result ≡ true → until_zero (drop from bytes.now) ≡ ranks.now }
{
    let Some(behind) = bytes.get(from..) else {
        return false;
    };
    let Some(own) = behind.get(..ranks.len() + 1) else {
        return false;
    };
    for (i, rank) in ranks.iter().enumerate() {
        if own[i] as u32 != *rank {
            return false;
        }
    }
    own[ranks.len()] == 0
}
