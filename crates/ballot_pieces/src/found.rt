// What was read of ballot lines.
ghost use Rattle.std.specs.Prelude.{◌≡◌, ◌+◌, ◌≤◌, All, IfOk, IfSome, OnOk, true};
ghost use Rattle.plain_ballots.specs.declared.limits.TheConstants.{MOST_BALLOTS, MOST_CANDIDATES};
ghost use Rattle.plain_ballots.specs.Ballots.{BallotList, ballot_count};
ghost use Rattle.ballot_pieces.specs.declared.at_count.AtCount.{AtCount};
ghost use Rattle.ballot_pieces.specs.Found.{IsFound, IsRead, no_ballots};

use crate::at_count::AtCount;
use crate::piece::Piece;
use blt_reader::{LineBounds, read_piece};
use packed_ballots::{NoMemory, PackedBallots};
use std::alloc::Global;

/// Ballots of the lines from one count to another.
#[derive(Drop)]
pub(crate) struct Found<'a> {
    pub ballots: PackedBallots,
    pub to: AtCount<'a>,
}

impl<'a> Found<'a> {
    /// Reads lines up to the first count that is the 0 after all lines or is after `place`, unless
    /// they are refused or memory is wanted.
    pub(crate) fn read(
        alloc: Global,
        from: &AtCount<'a>,
        bounds: LineBounds,
        place: usize,
    ) -> Option<Found<'a>>
        requires most { bounds.most ≤ MOST_BALLOTS }
        requires candidates { bounds.candidates ≤ MOST_CANDIDATES }
        ensures { IfSome result (IsFound bounds (no_ballots bounds.candidates) from.now) }
    {
        let empty = PackedBallots::new(alloc, bounds.candidates).ok()?;
        let mut tokens = from.tokens.same();
        let piece = read_piece(alloc, &mut tokens, empty, bounds, from.count, place).ok()?;
        Some(Found {
            ballots: piece.ballots,
            to: AtCount {
                count: piece.last,
                tokens,
            },
        })
    }

    /// Puts together the pieces of which each begins where those before it ended, from the last of the list
    /// on, as long as they are within the bounds together.
    pub(crate) fn joined(
        pieces: Vec<Piece<'a>>,
        start: &AtCount<'a>,
        empty: PackedBallots,
        bounds: LineBounds,
    ) -> Result<Found<'a>, NoMemory>
        requires most { bounds.most ≤ MOST_BALLOTS }
        requires candidates { empty.candidates ≡ bounds.candidates }
        requires pieces { All (IsRead bounds start.now.tokens.bytes) pieces.items }
        ensures { IfOk result (IsFound bounds empty start.now) }
    {
        let mut pieces = pieces;
        let mut found = Found {
            ballots: empty,
            to: start.same(),
        };
        while let Some(piece) = pieces.pop() {
            if !found.takes(piece, bounds)? {
                return Ok(found);
            }
        }
        Ok(found)
    }

    /// Takes in a piece that begins where this one ends, and says whether it was one, and had room.
    fn takes(&mut self, piece: Piece<'a>, bounds: LineBounds) -> Result<bool, NoMemory>
        requires most { bounds.most ≤ MOST_BALLOTS }
        requires candidates { self.old.ballots.candidates ≡ bounds.candidates }
        requires piece { IsRead bounds self.old.to.tokens.bytes piece }
        ensures { OnOk result ((store : BallotList) (from : AtCount) → IsFound bounds store from self.old → IsFound bounds store from self.new) }
    {
        let Piece { from, found, .. } = piece;
        let Some(more) = found else {
            return Ok(false);
        };
        if !self.to.is_at(&from) || !self.has_room(&more, bounds.most) {
            return Ok(false);
        }
        let Found { ballots, to } = more;
        self.ballots.append(ballots)?;
        self.to = to;
        Ok(true)
    }

    /// Whether both together are at most so many ballots.
    fn has_room(&self, more: &Found<'_>, most: u32) -> bool
        ensures { result ≡ true → ballot_count self.now.ballots.lines + ballot_count more.now.ballots.lines ≤ most }
    {
        let (own, more) = (self.ballots.total(), more.ballots.total());
        let most = most as u64;
        own <= most && more <= most - own
    }
}
