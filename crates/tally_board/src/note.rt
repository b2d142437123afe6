// What is told of a board.
ghost use Rattle.std.specs.Prelude.{◌≡◌, ◌++◌, IsTrue};
ghost use Rattle.tally_board.specs.Begins.{Begins};
ghost use Rattle.tally_board.specs.Told.{listed};

use crate::Move;
use crate::law::Law;
use crate::line::Line;
use crate::mark::Mark;
use logbook::Seen;
use std::marker::Model;

/// Tells that these moves of a board were published. Contracts see which board it is, and the moves. At
/// run time it has their number and the last of them.
#[derive(Drop)]
pub struct Note {
    pub(crate) seen: Seen<Line, u64, Law>,
    pub(crate) home: Mark,
    // It stays at the greatest number, and tells nothing then.
    pub(crate) count: u64,
    pub(crate) last: Option<Move>,
}

impl Model for Note {
    ghost use Rattle.tally_board.specs.Lines.{moves_from};
    ghost use Rattle.tally_board.specs.Marks.{key_of};
    ghost use Rattle.tally_board.specs.Told.{Told, IsCounted};

    ghost Value = { Told };

    ghost view = { λ n. record {
      board = record { book = n.seen.book; first = key_of n.home };
      moves = moves_from (key_of n.home) n.seen.log;
    } };

    ghost invariant = { λ n. IsCounted n.count n.last (moves_from (key_of n.home) n.seen.log) };
}

impl Note {
    /// A copy.
    pub(crate) fn again(&self) -> Note
        ensures { result ≡ self.now }
    {
        Note {
            seen: self.seen.again(),
            home: self.home.again(),
            count: self.count,
            last: self.last,
        }
    }

    /// Whether its moves begin those of another note with this move after them. It may be false where
    /// they do, but only if they are as many as the greatest number.
    pub(crate) fn begins(&self, before: &Note, last: Option<Move>) -> bool
        requires { before.now.board ≡ self.now.board }
        ensures { IsTrue result → Begins self.now.moves (before.now.moves ++ listed last) }
    {
        let mut both = self.seen.again();
        both.learn(&before.seen);
        if self.count >= u64::MAX || before.count >= u64::MAX {
            return false;
        }
        if self.count <= before.count {
            return true;
        }
        if self.count - 1 != before.count {
            return false;
        }
        is_same(self.last, last)
    }

    /// The longer of two notes, which the other begins.
    pub(crate) fn longer(&self, other: Note) -> Note
        requires { other.board ≡ self.now.board }
        ensures board { result.board ≡ self.now.board }
        ensures this { Begins self.now.moves result.moves }
        ensures that { Begins other.moves result.moves }
    {
        let mut both = self.seen.again();
        both.learn(&other.seen);
        if self.count >= u64::MAX || other.count >= u64::MAX {
            return Note {
                seen: both,
                home: self.home.again(),
                count: u64::MAX,
                last: None,
            };
        }
        if self.count < other.count {
            other
        } else {
            self.again()
        }
    }
}

fn is_same(one: Option<Move>, other: Option<Move>) -> bool
    ensures { IsTrue result → one ≡ other }
{
    one == other
}
