// The rows of a trie's nodes.
ghost use Rattle.std.specs.Prelude.{◌≡◌, ℕ, ◌+◌, ◌≤◌, [], ◌∷◌, ◌++◌, IfOk, OnOk};
ghost use Rattle.plain_ballots.specs.declared.limits.TheConstants.{MOST_BALLOTS, MOST_CANDIDATES};
ghost use Rattle.ranking_trie.specs.Siblings.{forest_of};
ghost use Rattle.frozen_plan.specs.Forest.{Bare, Grown, through, rows_of, IsGrown};
ghost use Rattle.frozen_plan.specs.Shape.{shape_of};

use crate::plan_row::skip_of;
use crate::{NoMemory, PlanRow};
use ranking_trie::Siblings;

/// Appends the nodes of a forest in preorder, and gives how many ballots go through them.
#[cycle(rows)]
pub(crate) fn push_forest(
    forest: Siblings,
    depth: u16,
    rows: &mut Vec<PlanRow>,
) -> Result<u32, NoMemory>
    requires grown { (low : ℕ) × IsGrown MOST_CANDIDATES low depth (shape_of (forest_of forest)) }
    requires few { through (shape_of (forest_of forest)) ≤ MOST_BALLOTS }
    requires depth { depth ≤ MOST_CANDIDATES + 1 }
    ensures rows { IfOk result (λ _. rows.new.items ≡ rows.old.items ++ rows_of depth (shape_of (forest_of forest.entry))) }
    ensures through { IfOk result (λ n. n ≡ through (shape_of (forest_of forest.entry))) }
{
    let mut total = 0;
    let mut rest = forest;
    while let Some(node) = rest.first() {
        total += push_node(node.candidate, node.ends, node.inner, depth, rows)?;
        rest = node.next;
    }
    Ok(total)
}

/// Appends a node at which `ends` ballots end, and those below it.
#[cycle(rows)]
fn push_node(
    candidate: u16,
    ends: u32,
    inner: Siblings,
    depth: u16,
    rows: &mut Vec<PlanRow>,
) -> Result<u32, NoMemory>
    requires candidate { candidate ≤ MOST_CANDIDATES }
    requires grown { IsGrown MOST_CANDIDATES 0 (depth + 1) (shape_of (forest_of inner)) }
    requires few { ends + through (shape_of (forest_of inner)) ≤ MOST_BALLOTS }
    requires depth { depth ≤ MOST_CANDIDATES }
    ensures rows { IfOk result (λ _. rows.new.items ≡ rows.old.items ++ rows_of depth (Grown candidate ends (shape_of (forest_of inner.entry)) Bare)) }
    ensures through { IfOk result (λ n. n ≡ ends + through (shape_of (forest_of inner.entry))) }
{
    let at = rows.len();
    let row = PlanRow {
        depth,
        candidate,
        ballots: 0,
        skip: 0,
    };
    rows.push(row)?;
    let below = push_forest(inner, depth + 1, rows)?;
    let ballots = ends + below;
    let skip = skip_of(rows.len() - at)?;
    rows[at] = PlanRow {
        ballots,
        skip,
        ..row
    };
    Ok(ballots)
}
