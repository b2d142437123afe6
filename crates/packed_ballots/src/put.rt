// A line after the others.
ghost use Rattle.std.specs.Prelude.{◌≡◌, ◌+◌, ◌≤◌, [], ◌∷◌, ◌++◌, All, length, vec_len, vec_capacity, OnErr, OnOk};
ghost use Rattle.plain_ballots.specs.declared.limits.TheConstants.{MOST_CANDIDATES};

use crate::{NoMemory, PackedLine};

/// Puts a line of its own for so many ballots with these ranks after the others.
pub(crate) fn put_line(
    bytes: &mut Vec<u8>,
    lines: &mut Vec<PackedLine>,
    count: u32,
    front: u64,
    ranks: &[u32],
) -> Result<(), NoMemory>
    requires { All (λ rank. rank ≤ MOST_CANDIDATES) ranks.now }
    ensures bytes { OnOk result (bytes.new.items ≡ bytes.old.items ++ (ranks.now ++ 0 ∷ [])) }
    ensures lines { OnOk result (lines.new.items ≡ lines.old.items ++ record { front = front; start = length bytes.old.items; count = count } ∷ []) }
    ensures bytes_kept { OnErr result (bytes.new.items ≡ bytes.old.items) }
    ensures lines_kept { OnErr result (lines.new.items ≡ lines.old.items) }
{
    let Ok(start) = u32::try_from(bytes.len()) else {
        return Err(NoMemory);
    };
    lines.reserve(1)?;
    bytes.reserve(ranks.len() + 1)?;
    put_ranks(bytes, ranks);
    bytes.push_reserved(0);
    lines.push_reserved(PackedLine {
        front,
        start,
        count,
    });
    Ok(())
}

/// Puts ranks after the others, where there is room for them.
fn put_ranks(bytes: &mut Vec<u8>, ranks: &[u32])
    requires small { All (λ rank. rank ≤ MOST_CANDIDATES) ranks.now }
    requires room { vec_len bytes.old + length ranks.now ≤ vec_capacity bytes.old }
    ensures items { bytes.new.items ≡ bytes.old.items ++ ranks.now }
    ensures len { vec_len bytes.new ≡ vec_len bytes.old + length ranks.now }
    ensures capacity { vec_capacity bytes.new ≡ vec_capacity bytes.old }
{
    for rank in ranks {
        bytes.push_reserved(*rank as u8);
    }
}
