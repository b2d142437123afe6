// A text of counts.
ghost use Rattle.std.specs.Prelude.{ℕ, ◌≤◌, List, length, map};
ghost use Rattle.lane_sheet.specs.Due.{CountDue, dues_of, WritesOrWants};
ghost use Rattle.lane_sheet.specs.Plans.{AreReady};

use crate::{NoMemory, Polls};
use byte_edge::{Failed, Sink};
use meek_rule::Spread;
use std::alloc::Global;

/// A text of counts, as of their sheets.
pub trait CountText<const P: usize> {
    /// What has to hold of the counts.
    ghost takes: { Self → List CountDue → Type 0 };

    /// Whether these bytes are the text of these counts.
    ghost is_text: { Self → List CountDue → List ℕ → Type 0 };

    /// Begins to count what each distribution holds, by the roll at its place, and then counts to the
    /// ends and writes the text. All memory is taken before the first byte.
    fn write<D: Spread<P>, K: Sink>(
        &self,
        alloc: Global,
        polls: &Polls<'_>,
        spreads: &mut [D],
        sink: &mut K,
    ) -> Result<Result<(), Failed>, NoMemory>
        requires places { (6 ≤ P) × (P ≤ 9) }
        requires ready { AreReady D.rule D.ballots D.candidates D.can_spread (length polls.now.lots.now) polls.now.rolls.now spreads.old }
        requires takes { takes self.now (dues_of polls.now.omega polls.now.lots.now polls.now.rolls.now (map D.ballots spreads.old)) }
        ensures { WritesOrWants
            (is_text self.now (dues_of polls.now.omega polls.now.lots.now polls.now.rolls.now (map D.ballots spreads.old)))
            K.written K.faults sink.old sink.new result };
}
