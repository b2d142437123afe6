// A place in a plan.
ghost use Rattle.std.specs.Prelude.{◌≡◌, ◌≤◌, [], All, IfNone, IfSome, AllPairs, length};
ghost use Rattle.plain_ballots.specs.declared.limits.TheConstants.{MOST_CANDIDATES};
ghost use Rattle.frozen_plan.specs.Plan.{plan_ballots};
ghost use Rattle.plain_ballots.specs.Ballots.{plain};
ghost use Rattle.blt_writer.specs.Merge.{IsHead, had, is_first, left};
ghost use Rattle.blt_writer.specs.Order.{StandsBefore};
ghost use Rattle.blt_writer.specs.Walk.{AreNodes, led_to};

use crate::ranks::ROOM;
use crate::rows::ends_at_first;
use frozen_plan::{Plan, PlanRow};
use std::marker::Model;

/// A place in the preorder of a plan's rows: the lines from there on.
#[derive(Drop)]
pub(crate) struct Cursor {
    plan: Plan,
    at: usize,
    /// The candidates that lead to the row, and others after them.
    path: [u16; ROOM],
}

impl Model for Cursor {
    ghost use Rattle.std.specs.Prelude.{List, drop};
    ghost use Rattle.plain_ballots.specs.declared.ballot_line.BallotLine.{BallotLine};
    ghost use Rattle.blt_writer.specs.Walk.{IsRest, lines_from};

    ghost Value = { List BallotLine };

    ghost view = { λ c. lines_from c.path (drop c.at c.plan.rows) };

    ghost invariant = { λ c. IsRest (drop c.at c.plan.rows) };
}

impl Cursor {
    /// The first place of a plan.
    pub fn begin(plan: Plan) -> Cursor
        ensures ballots { plain result ≡ plan_ballots plan.rows }
        ensures rising { AllPairs StandsBefore result }
    {
        Cursor::at_root(plan, [0; ROOM])
    }

    /// The first place of a plan. It does not matter which path led there.
    fn at_root(plan: Plan, path: [u16; ROOM]) -> Cursor
        ensures ballots { plain result ≡ plan_ballots plan.rows }
        ensures rising { AllPairs StandsBefore result }
    {
        let _rows = plan.rows();
        Cursor { plan, at: 0, path }
    }

    /// The ranking of the next line.
    pub fn head(&self) -> Option<&[u16]>
        ensures head { IfSome result (λ ranking. IsHead ranking.now self.now) }
        ensures short { IfSome result (λ ranking. length ranking.now ≤ MOST_CANDIDATES) }
        ensures none { IfNone result (self.now ≡ []) }
    {
        let rows = self.plan.rows();
        if self.at >= rows.len() {
            return None;
        }
        let depth = rows[self.at].depth as usize;
        Some(&self.path[..depth])
    }

    /// Takes the next line if it has this ranking, and gives how many ballots it stands for.
    pub fn take(&mut self, ranking: &[u16]) -> u64
        ensures count { result ≡ had ranking.now self.old }
        ensures left { self.new ≡ left ranking.now self.old }
    {
        if !self.is_at(ranking) {
            return 0;
        }
        let rows = self.plan.rows();
        let count = ends_at_first(&rows[self.at..]);
        self.at += 1;
        lead(&rows[self.at..], &mut self.path);
        count
    }

    fn is_at(&self, ranking: &[u16]) -> bool
        ensures { result ≡ is_first ranking.now self.now }
    {
        match self.head() {
            Some(head) => head == ranking,
            None => false,
        }
    }
}

/// Leads the path on to the first row, if there is one.
fn lead(rows: &[PlanRow], path: &mut [u16])
    requires rest { AreNodes rows.now }
    requires below_root { All (λ row. 1 ≤ row.depth) rows.now }
    requires long { length path.old ≡ MOST_CANDIDATES }
    ensures { path.new ≡ led_to path.old rows.now }
{
    if rows.len() > 0 {
        path[rows[0].depth as usize - 1] = rows[0].candidate;
    }
}
