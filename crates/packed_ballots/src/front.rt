// The first eight ranks of a ranking as a number.
ghost use Rattle.std.specs.Prelude.{◌≡◌, ◌≤◌, All};
ghost use Rattle.plain_ballots.specs.declared.limits.TheConstants.{MOST_CANDIDATES};
ghost use Rattle.packed_ballots.specs.Packed.{front_of};

/// The front of a line with these ranks.
#[inline]
pub(crate) fn front_digits(ranks: &[u32]) -> u64
    requires { All (λ rank. rank ≤ MOST_CANDIDATES) ranks.now }
    ensures { result ≡ front_of ranks.now }
{
    let mut front = 0;
    let mut place: u32 = 64;
    for rank in &ranks[..ranks.len().min(8)] {
        place -= 8;
        front += (*rank as u64) << place;
    }
    front
}
