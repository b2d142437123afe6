// The rows of plans, packed.
ghost use Rattle.std.specs.Prelude.{◌≡◌, ℕ, ◌≤◌, ◌*◌, All, IfOk, OnOk, drop, length, map, slice_index_or, vec_len};
ghost use Rattle.plain_ballots.specs.declared.limits.TheConstants.{MOST_BALLOTS, MOST_CANDIDATES};
ghost use Rattle.vote_spread.specs.declared.depths.TheConstants.{DEPTHS};
ghost use Rattle.frozen_plan.specs.Plan.{all_ballots, IsPlan};
ghost use Rattle.vote_spread.specs.Packed.{AreRows, HasAdded, StandFor};

use crate::NoMemory;
use crate::branches::Branches;
use crate::depths::DEPTHS;
use crate::merge::merge;
use crate::part::Part;
use frozen_plan::{Plan, PlanRow, Plans};
use std::alloc::Global;

/// Packs the siblings of all plans together.
pub(crate) fn pack_plans(alloc: Global, plans: Plans) -> Result<Branches, NoMemory>
    requires few { length (all_ballots plans) ≤ MOST_BALLOTS }
    ensures { IfOk result (λ branches. (n : ℕ) → All (λ plan. plan.candidates ≡ n) plans → StandFor n 1 branches (all_ballots plans)) }
{
    let mut branches = Branches::new(alloc);
    let mut parts = parts_of(alloc, plans.items())?;
    let mut room = room_for(alloc, parts.len())?;
    merge(parts.as_mut_slice(), room.as_mut_slice(), 1, &mut branches)?;
    Ok(branches)
}

/// Room for the nodes of so many parts on their way, at each depth as many.
fn room_for<'a>(alloc: Global, parts: usize) -> Result<Vec<Part<'a>>, NoMemory>
    ensures { IfOk result (λ room. vec_len room ≡ DEPTHS * parts) }
{
    let Some(len) = parts.checked_mul(DEPTHS) else {
        return Err(NoMemory);
    };
    let mut room = Vec::with_capacity(alloc, len)?;
    for _ in 0..len {
        room.push_reserved(Part::new(&[]));
    }
    Ok(room)
}

/// The siblings below the roots of plans.
fn parts_of<'a>(alloc: Global, plans: &'a [Plan]) -> Result<Vec<Part<'a>>, NoMemory>
    ensures parts { IfOk result (λ parts. parts.items ≡ map (λ plan. drop 1 plan.rows) plans.now) }
    ensures plans { OnOk result (All (λ plan. IsPlan plan.candidates plan.rows) plans.now) }
{
    let mut parts = Vec::new(alloc);
    for plan in plans {
        parts.push(Part::new(behind_first(plan.rows())))?;
    }
    Ok(parts)
}

/// Packs the rows of siblings at a depth and of all below them.
#[cycle(pack)]
pub(crate) fn pack_rows(
    rows: &[PlanRow],
    depth: u16,
    branches: &mut Branches,
) -> Result<(), NoMemory>
    requires depth { (1 ≤ depth) × (depth ≤ DEPTHS) }
    requires rows { AreRows MOST_CANDIDATES depth rows.now }
    ensures { OnOk result (HasAdded depth rows.now branches.old branches.new) }
{
    let mut rest = rows;
    while rest.len() > 0 {
        let (node, behind) = rest.split_at(rest[0].skip as usize);
        pack_node(node, depth, branches)?;
        rest = behind;
    }
    Ok(())
}

/// Packs the rows of a node and of all below it.
#[cycle(pack)]
pub(crate) fn pack_node(
    rows: &[PlanRow],
    depth: u16,
    branches: &mut Branches,
) -> Result<(), NoMemory>
    requires depth { (1 ≤ depth) × (depth ≤ DEPTHS) }
    requires rows { AreRows MOST_CANDIDATES depth rows.now }
    requires some { 1 ≤ length rows.now }
    requires one { (d : _) → (slice_index_or rows.now 0 d).skip ≡ length rows.now }
    ensures { OnOk result (HasAdded depth rows.now branches.old branches.new) }
{
    let row = rows[0];
    let below = behind_first(rows);
    if rows[rows.len() - 1].ballots == row.ballots {
        branches.push(depth, row, below)?;
        return Ok(());
    }
    let at = branches.len();
    branches.push(depth, row, &[])?;
    pack_rows(below, depth + 1, branches)?;
    branches.close(at);
    Ok(())
}

fn behind_first(rows: &[PlanRow]) -> &[PlanRow]
    requires { 1 ≤ length rows.now }
    ensures { result.now ≡ drop 1 rows.now }
{
    &rows[1..]
}
