// How many ballots end at a row.
ghost use Rattle.std.specs.Prelude.{◌≡◌, ◌+◌, ◌≤◌, ◌<◌, ◌^◌, ℕ, length, drop, slice_index_or};
ghost use Rattle.frozen_plan.specs.Forest.{rows_of, through, nodes_of};
ghost use Rattle.frozen_plan.specs.declared.plan_row.PlanRow.{PlanRow};
ghost use Rattle.blt_writer.specs.Walk.{AreNodes, ends_at};

use frozen_plan::PlanRow;

/// How many ballots end at the first row: those that go through it, but not through a row below it.
pub(crate) fn ends_at_first(rows: &[PlanRow]) -> u64
    requires nodes { AreNodes rows.now }
    requires some { 1 ≤ length rows.now }
    ensures { (d : PlanRow) → result ≡ ends_at (slice_index_or rows.now 0 d) (drop 1 rows.now) }
{
    let first = rows[0];
    let (below, _) = behind_first(rows).split_at(first.skip as usize - 1);
    first.ballots as u64 - through_all(below)
}

fn behind_first(rows: &[PlanRow]) -> &[PlanRow]
    requires { 1 ≤ length rows.now }
    ensures { result.now ≡ drop 1 rows.now }
{
    &rows[1..]
}

/// How many ballots go through some siblings.
fn through_all(rows: &[PlanRow]) -> u64
    requires siblings { (d : ℕ) × (rows.now ≡ rows_of d (nodes_of rows.now)) }
    requires few { through (nodes_of rows.now) < 2 ^ 64 }
    ensures { result ≡ through (nodes_of rows.now) }
{
    let mut total = 0;
    let mut siblings = rows;
    while siblings.len() > 0 {
        let first = siblings[0];
        total += first.ballots as u64;
        let (_, behind) = siblings.split_at(first.skip as usize);
        siblings = behind;
    }
    total
}
