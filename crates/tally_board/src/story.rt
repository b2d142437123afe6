// The moves of a board, as proofs read them. At run time only the last one is there.
use crate::Move;
use std::snapshot::Snapshot;

/// Stands for a list of moves. It grows without memory, since what came before is a snapshot.
#[derive(Drop)]
pub enum Story {
    Empty,
    Longer(Snapshot<Story>, Move),
}

impl Story {
    ghost use Rattle.std.specs.Prelude.{◌≡◌, ◌∷◌, [], ◌++◌};
    ghost use Rattle.tally_board.specs.Stories.{moves_of};
    ghost use Rattle.tally_board.specs.Told.{front, listed};

    /// Puts a move at the end.
    pub fn push(&mut self, step: Move)
        ensures { moves_of self.new ≡ moves_of self.old ++ step ∷ [] }
    {
        let before = Snapshot::of(self);
        *self = Story::Longer(before, step);
    }

    /// The last move, if there is one.
    pub fn last(&self) -> Option<Move>
        ensures { moves_of self.now ≡ front (moves_of self.now) ++ listed result }
    {
        match self {
            Story::Empty => None,
            Story::Longer(_, step) => Some(*step),
        }
    }
}
