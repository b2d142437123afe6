// How ballot lines are read.
ghost use Rattle.std.specs.Prelude.{◌≡◌, ◌≤◌, [], IfOk};
ghost use Rattle.plain_ballots.specs.declared.limits.TheConstants.{MOST_BALLOTS};
ghost use Rattle.blt_reader.specs.BallotTable.{Between};
ghost use Rattle.input_text.specs.Reads.{IsBehind};
ghost use Rattle.blt_reader.specs.Stored.{ReadsHeld, HoldsLines};
ghost use Rattle.blt_reader.specs.Pieces.{counted, lines_table};

use crate::line_bounds::LineBounds;
use crate::lines::read_lines_from;
use input_text::{InputStop, Tokens};
use packed_ballots::BallotStore;
use std::alloc::Global;

/// A way of reading ballot lines into a store. Whatever way it is, the lines, a refusal and its place are
/// those of reading one line after another.
pub trait LineReader<B: BallotStore + Drop> {
    /// Reads lines up to the 0 after them into a store that is empty so far. The first count was taken
    /// already, with its place.
    fn read_lines(
        &self,
        alloc: Global,
        tokens: &mut Tokens<'_>,
        empty: B,
        bounds: LineBounds,
        first: (u32, usize),
    ) -> Result<B, InputStop>
        requires most { bounds.most ≤ MOST_BALLOTS }
        requires none { B.holds empty [] }
        requires candidates { B.among empty ≡ bounds.candidates }
        ensures reads { ReadsHeld B.holds (lines_table bounds) (Between []) (λ b lines. lines) (counted first tokens.old.rest) result tokens.new.rest }
        ensures candidates { IfOk result (λ b. B.among b ≡ bounds.candidates) }
        ensures lines { IfOk result (HoldsLines B.holds bounds.candidates bounds.most) }
        ensures behind { IsBehind tokens.old tokens.new };
}

/// One line after another.
#[derive(Drop)]
pub struct OneByOne;

impl<B: BallotStore + Drop> LineReader<B> for OneByOne {
    fn read_lines(
        &self,
        alloc: Global,
        tokens: &mut Tokens<'_>,
        empty: B,
        bounds: LineBounds,
        first: (u32, usize),
    ) -> Result<B, InputStop> {
        read_lines_from(alloc, tokens, empty, bounds, first)
    }
}
