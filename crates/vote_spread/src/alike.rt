// Nodes whose ballots all go on with the same candidates.
ghost use Rattle.std.specs.Prelude.{◌≡◌, ◌≤◌, All, length, map, true};
ghost use Rattle.vote_spread.specs.Merged.{AreAlike, GoesOnLike};

use crate::part::Part;
use frozen_plan::PlanRow;

/// Whether all ballots of all these nodes go on alike.
pub(crate) fn go_on_alike(nodes: &[Part]) -> bool
    requires some { 1 ≤ length nodes.now }
    requires rows { All (λ rows. 1 ≤ length rows) nodes.now }
    ensures { result ≡ true → AreAlike nodes.now }
{
    let first = nodes[0].rows();
    for node in nodes {
        if !goes_on_like(node.rows(), first) {
            return false;
        }
    }
    true
}

/// Whether all ballots of a node go on with the candidates of the other's rows.
fn goes_on_like(rows: &[PlanRow], other: &[PlanRow]) -> bool
    requires some { 1 ≤ length rows.now }
    ensures { result ≡ true → GoesOnLike other.now rows.now }
{
    rows[rows.len() - 1].ballots == rows[0].ballots && have_same_candidates(rows, other)
}

/// Whether rows are of the same candidates, one by one.
fn have_same_candidates(rows: &[PlanRow], other: &[PlanRow]) -> bool
    ensures { result ≡ true → map (λ r. r.candidate) rows.now ≡ map (λ r. r.candidate) other.now }
{
    if rows.len() != other.len() {
        return false;
    }
    for i in 0..rows.len() {
        if rows[i].candidate != other[i].candidate {
            return false;
        }
    }
    true
}
