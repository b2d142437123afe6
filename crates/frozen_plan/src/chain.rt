// The rows of a single line: each node is below the one before.
ghost use Rattle.std.specs.Prelude.{◌≡◌, ◌+◌, ◌≤◌, ◌++◌, length, IfOk, OnOk};
ghost use Rattle.plain_ballots.specs.declared.limits.TheConstants.{MOST_CANDIDATES};
ghost use Rattle.frozen_plan.specs.Forest.{rows_of};
ghost use Rattle.frozen_plan.specs.Groups.{chain};
ghost use Rattle.packed_ballots.specs.Packed.{rest_of};

use crate::{NoMemory, PlanRow};
use packed_ballots::{PackedLine, rank_at};
use plain_ballots::MOST_CANDIDATES;

/// Appends the nodes of a line by what is in its ranking from place `at` from 0 on, and gives how
/// many ballots it has.
pub(crate) fn push_line(
    ranks: &[u8],
    line: PackedLine,
    at: u16,
    rows: &mut Vec<PlanRow>,
) -> Result<u32, NoMemory>
    requires short { at + length (rest_of ranks.now at line) ≤ MOST_CANDIDATES }
    ensures rows { IfOk result (λ _. rows.new.items ≡ rows.old.items ++ rows_of (at + 1) (chain line.count (rest_of ranks.now at line))) }
    ensures total { IfOk result (λ n. n ≡ line.count) }
{
    let ballots = line.count;
    let end = end_of(ranks, line, at);
    for i in at..end {
        let row = PlanRow {
            depth: i + 1,
            candidate: rank_at(ranks, line, i) as u16,
            ballots,
            skip: (end - i) as u32,
        };
        rows.push(row)?;
    }
    Ok(ballots)
}

/// The place from 0 after a line's last rank, which is at `at` or after it.
fn end_of(ranks: &[u8], line: PackedLine, at: u16) -> u16
    requires short { at + length (rest_of ranks.now at line) ≤ MOST_CANDIDATES }
    ensures { result ≡ at + length (rest_of ranks.now at line) }
{
    for i in at..MOST_CANDIDATES as u16 {
        if rank_at(ranks, line, i) == 0 {
            return i;
        }
    }
    MOST_CANDIDATES as u16
}
