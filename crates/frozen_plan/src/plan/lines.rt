// The plan of packed lines.
ghost use Rattle.std.specs.Prelude.{◌≡◌, ◌≤◌, IfOk, IsPermutation};
ghost use Rattle.plain_ballots.specs.declared.limits.TheConstants.{MOST_BALLOTS, MOST_CANDIDATES};
ghost use Rattle.plain_ballots.specs.Ballots.{plain};
ghost use Rattle.packed_ballots.specs.Packed.{IsPacked, line_count, rests};
ghost use Rattle.frozen_plan.specs.Plan.{IsPlan, plan_ballots};

use crate::groups::push_group;
use crate::merge::merge;
use crate::plan_row::skip_of;
use crate::{NoMemory, Plan, PlanRow};
use packed_ballots::{PackedBallots, PackedLine, packed_lines_stand_for_ballots};
use std::alloc::Global;

impl Plan {
    /// The plan of packed ballots, which are let go.
    pub(crate) fn of_packed(alloc: Global, packed: PackedBallots) -> Result<Plan, NoMemory>
        ensures candidates { IfOk result (λ plan. plan.candidates ≡ packed.candidates) }
        ensures ballots { IfOk result (λ plan. IsPermutation (plan_ballots plan.rows) (plain packed.lines)) }
    {
        packed_lines_stand_for_ballots();
        let candidates = packed.candidates();
        let (ranks, mut lines) = packed.into_parts();
        Plan::of_lines(alloc, candidates, ranks.as_slice(), lines.as_mut_slice())
    }

    /// The plan of packed lines. They are sorted, and equal ones made one, on the way.
    pub(crate) fn of_lines(
        alloc: Global,
        candidates: u32,
        ranks: &[u8],
        lines: &mut [PackedLine],
    ) -> Result<Plan, NoMemory>
        requires candidates { candidates ≤ MOST_CANDIDATES }
        requires sound { IsPacked candidates ranks.now lines.old }
        requires few { line_count lines.old ≤ MOST_BALLOTS }
        ensures candidates { IfOk result (λ plan. plan.candidates ≡ candidates) }
        ensures ballots { IfOk result (λ plan. IsPermutation (plan_ballots plan.rows) (rests ranks.now 0 lines.old)) }
    {
        lines.sort_unstable_by_key(|line| line.front);
        let kept = merge(ranks, lines);
        let rows = rows_of_lines(alloc, candidates, ranks, &mut lines[..kept])?;
        Ok(Plan { candidates, rows })
    }
}

/// The root of lines and the nodes below it.
fn rows_of_lines(
    alloc: Global,
    candidates: u32,
    ranks: &[u8],
    lines: &mut [PackedLine],
) -> Result<Vec<PlanRow>, NoMemory>
    requires candidates { candidates ≤ MOST_CANDIDATES }
    requires sound { IsPacked candidates ranks.now lines.old }
    requires few { line_count lines.old ≤ MOST_BALLOTS }
    ensures plan { IfOk result (λ rows. IsPlan candidates rows.items) }
    ensures ballots { IfOk result (λ rows. IsPermutation (plan_ballots rows.items) (rests ranks.now 0 lines.old)) }
{
    let mut rows = Vec::new(alloc);
    let root = PlanRow {
        depth: 0,
        candidate: 0,
        ballots: 0,
        skip: 0,
    };
    rows.push(root)?;
    let ballots = push_group(ranks, lines, 0, &mut rows)?;
    let skip = skip_of(rows.len())?;
    rows[0] = PlanRow {
        ballots,
        skip,
        ..root
    };
    Ok(rows)
}
