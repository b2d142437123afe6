// What a board shows.
ghost use Rattle.std.specs.Prelude.{◌≡◌, length, IfOk, IsTrue};
ghost use Rattle.tally_board.specs.Begins.{Begins};
ghost use Rattle.tally_board.specs.Moves.{IsStory, totals_after};
ghost use Rattle.tally_board.specs.Stories.{moves_of};
ghost use Rattle.tally_board.specs.Told.{front};

use crate::entry::Entry;
use crate::story::Story;
use crate::{Move, NoMemory, Note, Totals};
use left_right::Absorb;
use std::alloc::{AllocError, Global};

/// The totals, the moves that led to them, and a note of all those but the last.
#[derive(Drop)]
pub struct Board {
    pub totals: Totals,
    pub story: Story,
    pub before: Note,
    pub ghost right: { ∥ (IsStory (length totals) (moves_of story)
        → totals ≡ totals_after (length totals) (moves_of story)) ∥₁ },
}

impl Board {
    ghost use Rattle.std.specs.Prelude.{[]};

    /// No ballots for so many candidates.
    pub fn empty(alloc: Global, candidates: usize, before: &Note) -> Result<Board, NoMemory>
        ensures { IfOk result (λ b.
            (moves_of b.story ≡ []) × (length b.totals ≡ candidates) × (b.before ≡ before.now)) }
    {
        let totals = Totals::filled(alloc, candidates, 0)?;
        Ok(Board {
            totals,
            story: Story::Empty,
            before: before.again(),
        })
    }

    /// Whether the moves of a note begin those that are shown.
    pub fn shows(&self, note: &Note) -> bool
        requires board { self.now.before.board ≡ note.now.board }
        requires before { self.now.before.moves ≡ front (moves_of self.now.story) }
        ensures { IsTrue result → Begins note.now.moves (moves_of self.now.story) }
    {
        note.begins(&self.before, self.story.last())
    }
}

impl Absorb<Entry> for Board {
    ghost use Rattle.std.specs.Prelude.{[], ◌∷◌, ◌++◌};

    /// How many candidates there are, the moves, and the note. A clause reads the array as a list.
    type State = (usize, ([Move; 0], Note));

    ghost state = { λ b. (length b.totals, (moves_of b.story, b.before)) };

    ghost applied = { λ s e. (s.0, (s.1.0 ++ e.step ∷ [], e.before)) };

    ghost never_fails = { Unit {0} };

    fn absorb_first(&mut self, operation: &Entry, _other: &Board) -> Result<(), AllocError> {
        self.totals.follow(&operation.step);
        self.story.push(operation.step);
        self.before = operation.before.again();
        Ok(())
    }
}
