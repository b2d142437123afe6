// A line of packed ballots.
ghost use Rattle.std.specs.Prelude.{◌≡◌, ◌≤◌};
ghost use Rattle.plain_ballots.specs.declared.limits.TheConstants.{MOST_CANDIDATES};
ghost use Rattle.packed_ballots.specs.Packed.{rank_of};

/// A line of packed ballots: where its ranking begins among the ranks, and how many ballots it has. The
/// first eight candidates are the digits of its front to base 256, the first of them the highest, with 0
/// after the last one: lines that stand by their fronts stand by their first eight candidates.
#[derive(Clone, Copy, Drop)]
pub struct PackedLine {
    pub front: u64,
    pub start: u32,
    pub count: u32,
}

/// The candidate at a place from 0 of a line's ranking, and 0 after its last one.
pub fn rank_at(ranks: &[u8], line: PackedLine, at: u16) -> u8
    requires { at ≤ MOST_CANDIDATES }
    ensures { result ≡ rank_of ranks.now at line }
{
    match ranks.get(line.start as usize + at as usize) {
        Some(rank) => *rank,
        None => 0,
    }
}
