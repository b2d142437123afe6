// Siblings of several plans packed together.
ghost use Rattle.std.specs.Prelude.{◌≡◌, ◌+◌, ◌-◌, ◌*◌, ◌≤◌, ◌<◌, ◌⊎◌, [], ◌++◌, ℕ, None, All, IfNone, IfSome, OnOk, drop, length, map, sum_by, take};
ghost use Rattle.std.specs.List.{flat_map};
ghost use Rattle.plain_ballots.specs.declared.limits.TheConstants.{MOST_BALLOTS, MOST_CANDIDATES};
ghost use Rattle.vote_spread.specs.declared.depths.TheConstants.{DEPTHS};
ghost use Rattle.vote_spread.specs.Merged.{behind, first_ballots, front, AreParts, HasMerged, IsAlone};
ghost use Rattle.vote_spread.specs.Packed.{AreRows};

use crate::NoMemory;
use crate::alike::go_on_alike;
use crate::branches::Branches;
use crate::pack::pack_node;
use crate::part::Part;
use frozen_plan::PlanRow;

/// Packs siblings of several plans at a depth and all below them. Those of one candidate are one branch.
/// In the room lie the nodes that are on their way, those of each depth after those above.
#[cycle(merge)]
pub(crate) fn merge<'a>(
    parts: &mut [Part<'a>],
    room: &mut [Part<'a>],
    depth: u16,
    branches: &mut Branches,
) -> Result<(), NoMemory>
    requires depth { (1 ≤ depth) × (depth ≤ DEPTHS) }
    requires parts { AreParts depth parts.old }
    requires room { (252 - depth) * length parts.old ≤ length room.old }
    ensures merged { OnOk result (HasMerged depth parts.old branches.old branches.new) }
    ensures as_many { OnOk result (length parts.new ≡ length parts.old) }
    ensures as_much_room { OnOk result (length room.new ≡ length room.old) }
{
    while let Some(candidate) = least(parts) {
        let many = take_nodes(candidate, parts, room);
        let (nodes, deeper) = room.split_at_mut(many);
        merge_nodes(candidate, nodes, deeper, depth, branches)?;
    }
    Ok(())
}

/// Packs nodes of one candidate, of several plans, and all below them.
#[cycle(merge)]
fn merge_nodes<'a>(
    candidate: u16,
    nodes: &mut [Part<'a>],
    room: &mut [Part<'a>],
    depth: u16,
    branches: &mut Branches,
) -> Result<(), NoMemory>
    requires depth { (1 ≤ depth) × (depth ≤ DEPTHS) }
    requires nodes { AreParts depth nodes.old }
    requires some { 1 ≤ length nodes.old }
    requires alone { All (IsAlone candidate) nodes.old }
    requires room { (DEPTHS - depth) * length nodes.old ≤ length room.old }
    ensures merged { OnOk result (HasMerged depth nodes.old branches.old branches.new) }
    ensures as_many { OnOk result (length nodes.new ≡ length nodes.old) }
    ensures as_much_room { OnOk result (length room.new ≡ length room.old) }
{
    if nodes.len() == 1 {
        return pack_node(nodes[0].rows(), depth, branches);
    }
    let alike = go_on_alike(nodes);
    let ballots = open_all(nodes);
    let row = PlanRow {
        depth,
        candidate,
        ballots,
        skip: 1,
    };
    if alike {
        branches.push(depth, row, nodes[0].rows())?;
        return Ok(());
    }
    let at = branches.len();
    branches.push(depth, row, &[])?;
    merge(nodes, room, depth + 1, branches)?;
    branches.close(at);
    Ok(())
}

/// The least candidate of which any part has the next sibling; none where all parts are at their ends.
fn least(parts: &[Part]) -> Option<u16>
    ensures some { IfSome result (λ c. 1 ≤ length (flat_map (front c) parts.now)) }
    ensures none { IfNone result (All (λ rows. rows ≡ []) parts.now) }
{
    let mut least = None;
    for part in parts {
        least = lesser(least, part.head());
    }
    least
}

/// The lesser of two numbers, as far as they are there.
fn lesser(one: Option<u16>, other: Option<u16>) -> Option<u16>
    ensures either { (result ≡ one) ⊎ (result ≡ other) }
    ensures none { IfNone result ((one ≡ None) × (other ≡ None)) }
{
    match (one, other) {
        (Some(a), Some(b)) => Some(a.min(b)),
        (Some(a), None) => Some(a),
        (None, other) => other,
    }
}

/// Takes the next sibling of each part out to the front of the room, where it is of this candidate, and
/// gives how many there are.
fn take_nodes<'a>(candidate: u16, parts: &mut [Part<'a>], room: &mut [Part<'a>]) -> usize
    requires rows { (d : ℕ) × All (AreRows MOST_CANDIDATES d) parts.old }
    requires room { length parts.old ≤ length room.old }
    ensures nodes { take result room.new ≡ flat_map (front candidate) parts.old }
    ensures few { result ≤ length parts.old }
    ensures as_much_room { length room.new ≡ length room.old }
    ensures behind { parts.new ≡ map (behind candidate) parts.old }
{
    let mut many = 0;
    for part in parts.iter_mut() {
        many = take_node(candidate, part, many, room);
    }
    many
}

/// Takes the next sibling of a part out to place `at` of the room, where it is of this candidate, and
/// gives the place after.
fn take_node<'a>(candidate: u16, part: &mut Part<'a>, at: usize, room: &mut [Part<'a>]) -> usize
    requires rows { (d : ℕ) × AreRows MOST_CANDIDATES d part.old }
    requires room { at < length room.old }
    ensures node { take result room.new ≡ take at room.old ++ front candidate part.old }
    ensures next { result ≤ at + 1 }
    ensures as_much_room { length room.new ≡ length room.old }
    ensures behind { part.new ≡ behind candidate part.old }
{
    match part.take(candidate) {
        Some(node) => {
            room[at] = node;
            at + 1
        }
        None => at,
    }
}

/// Leaves the first row of each node out, and gives how many ballots go through all nodes.
fn open_all(nodes: &mut [Part]) -> u32
    requires some { All (λ rows. 1 ≤ length rows) nodes.old }
    requires few { sum_by first_ballots nodes.old ≤ MOST_BALLOTS }
    ensures ballots { result ≡ sum_by first_ballots nodes.old }
    ensures below { nodes.new ≡ map (drop 1) nodes.old }
{
    let mut ballots = 0;
    for node in nodes.iter_mut() {
        ballots += node.open();
    }
    ballots
}
