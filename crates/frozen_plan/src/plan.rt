// A trie's bag of ballots, frozen.
ghost use Rattle.std.specs.Prelude.{◌≡◌, ◌≤◌, IfOk, length};
ghost use Rattle.plain_ballots.specs.declared.limits.TheConstants.{MOST_CANDIDATES};
ghost use Rattle.frozen_plan.specs.Plan.{IsPlan, plan_ballots};
ghost use Rattle.frozen_plan.specs.Rows.{AreRowsOf};

use crate::plan_row::skip_of;
use crate::rows::push_forest;
use crate::{NoMemory, PlanRow};
use ranking_trie::Trie;
use std::alloc::Global;
use std::marker::Model;

mod lines;
/// The nodes of a trie in preorder, its root first: the ballots of its bag.
#[derive(Debug, Drop)]
pub struct Plan {
    candidates: u32,
    rows: Vec<PlanRow>,
}

impl Model for Plan {
    ghost use Rattle.frozen_plan.specs.Plan.{PlanRows, IsPlan};

    ghost Value = { PlanRows };

    ghost view = { λ p. record { candidates = p.candidates; rows = p.rows.items } };

    ghost invariant = { λ p. IsPlan p.candidates p.rows.items };
}

impl Plan {
    /// The plan of a trie's bag. Its ballots stand in the trie's order.
    pub fn from_trie(alloc: Global, trie: &Trie) -> Result<Plan, NoMemory>
        ensures candidates { IfOk result (λ plan. plan.candidates ≡ trie.now.candidates) }
        ensures ballots { IfOk result (λ plan. plan_ballots plan.rows ≡ trie.now.ballots) }
        ensures plan { IfOk result (λ plan. IsPlan plan.candidates plan.rows) }
    {
        let candidates = trie.candidates();
        let rows = rows_of_trie(alloc, trie)?;
        Ok(Plan { candidates, rows })
    }

    /// The root, whose beginning has no candidate, and then the nodes below it, each with those
    /// below it right after.
    pub fn rows(&self) -> &[PlanRow]
        ensures rows { result.now ≡ self.now.rows }
        ensures plan { IsPlan self.now.candidates self.now.rows }
    {
        self.rows.as_slice()
    }

    /// The number of all ballots.
    pub fn total(&self) -> u64
        ensures { result ≡ length (plan_ballots self.now.rows) }
    {
        self.rows[0].ballots as u64
    }
}

/// The root of a trie and the nodes below it.
fn rows_of_trie(alloc: Global, trie: &Trie) -> Result<Vec<PlanRow>, NoMemory>
    requires { trie.now.candidates ≤ MOST_CANDIDATES }
    ensures { IfOk result (λ rows. AreRowsOf trie.now rows.items) }
{
    let mut rows = Vec::with_capacity(alloc, trie.nodes().saturating_add(1))?;
    let root = PlanRow {
        depth: 0,
        candidate: 0,
        ballots: trie.total() as u32,
        skip: 0,
    };
    rows.push(root)?;
    push_forest(trie.forest(), 1, &mut rows)?;
    let skip = skip_of(rows.len())?;
    rows[0] = PlanRow { skip, ..root };
    Ok(rows)
}
