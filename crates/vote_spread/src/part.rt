// Siblings of one plan on their way into branches.
ghost use Rattle.std.specs.Prelude.{◌≡◌, ◌≤◌, [], ◌∷◌, ◌++◌, ℕ, true, IfNone, IfSome, OnOk, drop, length};
ghost use Rattle.plain_ballots.specs.declared.limits.TheConstants.{MOST_CANDIDATES};
ghost use Rattle.vote_spread.specs.Merged.{begins, behind, first_ballots, front};
ghost use Rattle.vote_spread.specs.Packed.{AreRows};

use frozen_plan::PlanRow;
use std::marker::Model;

/// The rows of siblings of one plan, and of all below them.
#[derive(Drop)]
pub(crate) struct Part<'a> {
    rows: &'a [PlanRow],
}

impl<'a> Model for Part<'a> {
    ghost use Rattle.std.specs.Prelude.{List};
    ghost use Rattle.frozen_plan.specs.declared.plan_row.PlanRow.{PlanRow};

    ghost Value = { List PlanRow };

    ghost view = { λ part. part.rows.now };
}

impl<'a> Part<'a> {
    pub(crate) fn new(rows: &'a [PlanRow]) -> Part<'a>
        ensures { result ≡ rows.now }
    {
        Part { rows }
    }

    pub(crate) fn rows(&self) -> &[PlanRow]
        ensures { result.now ≡ self.now }
    {
        self.rows
    }

    /// The candidate of the first sibling.
    pub(crate) fn head(&self) -> Option<u16>
        ensures some { IfSome result (λ c. begins c self.now ≡ true) }
        ensures none { IfNone result (self.now ≡ []) }
    {
        match self.rows.first() {
            Some(row) => Some(row.candidate),
            None => None,
        }
    }

    /// Leaves the first row out, and gives its ballots.
    pub(crate) fn open(&mut self) -> u32
        requires { 1 ≤ length self.old }
        ensures ballots { result ≡ first_ballots self.old }
        ensures below { self.new ≡ drop 1 self.old }
    {
        let ballots = self.rows[0].ballots;
        self.rows = &self.rows[1..];
        ballots
    }

    /// Whether the first sibling is of this candidate.
    fn begins(&self, candidate: u16) -> bool
        ensures { result ≡ begins candidate self.now }
    {
        match self.head() {
            Some(first) => first == candidate,
            None => false,
        }
    }

    /// Takes the first sibling out with all below it, where it is of this candidate.
    pub(crate) fn take(&mut self, candidate: u16) -> Option<Part<'a>>
        requires { (d : ℕ) × AreRows MOST_CANDIDATES d self.old }
        ensures node { IfSome result (λ node. front candidate self.old ≡ node ∷ []) }
        ensures none { IfNone result (front candidate self.old ≡ []) }
        ensures behind { self.new ≡ behind candidate self.old }
    {
        if !self.begins(candidate) {
            return None;
        }
        let (node, behind) = self.rows.split_at(self.rows[0].skip as usize);
        self.rows = behind;
        Some(Part { rows: node })
    }
}
