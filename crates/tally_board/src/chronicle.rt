// All moves of a board, published or not.
ghost use Rattle.std.specs.Prelude.{◌≡◌, [], ◌∷◌, ◌++◌};
ghost use Rattle.logbook.specs.Pages.{may_write};
ghost use Rattle.tally_board.specs.Begins.{Begins};
ghost use Rattle.tally_board.specs.Law.{head_of};

use crate::law::{Adds, Ask, Holds, Law, Nothing, Opens};
use crate::line::Line;
use crate::mark::Mark;
use crate::{Move, Note};
use logbook::{Offer, Pen, Seen, Start, Word};
use std::marker::Model;

/// All moves of a board, published or not. It takes no memory, whatever their number: the list stands
/// in proofs alone.
#[derive(Drop)]
pub(crate) struct Chronicle {
    head: Word<Line, u64, Law>,
    seen: Seen<Line, u64, Law>,
    home: Mark,
    // Nobody else can spend its key, so no move was added since the last call.
    pen: Pen,
    count: u64,
    last: Option<Move>,
}

impl Model for Chronicle {
    ghost use Rattle.std.specs.Prelude.{◌≡◌};
    ghost use Rattle.logbook.specs.Pages.{may_write};
    ghost use Rattle.tally_board.specs.Law.{head_of};
    ghost use Rattle.tally_board.specs.Lines.{moves_from, key_after};
    ghost use Rattle.tally_board.specs.Marks.{key_of};
    ghost use Rattle.tally_board.specs.Told.{Told, IsCounted};

    ghost Value = { Told };

    ghost view = { λ c. record {
      board = record { book = c.seen.book; first = key_of c.home };
      moves = moves_from (key_of c.home) c.seen.log;
    } };

    ghost invariant = { λ c. (c.head ≡ head_of c.seen.book)
        × (c.pen.book ≡ c.seen.book)
        × (c.pen.nib.right ≡ may_write)
        × (c.pen.nib.key ≡ key_after (key_of c.home) c.seen.log)
        × IsCounted c.count c.last (moves_from (key_of c.home) c.seen.log) };
}

/// The right to make one move more in this book.
fn fresh(head: &Word<Line, u64, Law>, seen: &Seen<Line, u64, Law>, step: Move) -> Pen
    requires { head.now ≡ head_of seen.now.book }
    ensures book { result.book ≡ seen.now.book }
    ensures right { result.nib.right ≡ may_write }
{
    let mut seen = seen.again();
    let mut offer: Offer<Line, u64, Law, Nothing> = seen.plain::<Nothing, Move, Opens>(&step);
    let mut pen = seen.no_pen();
    head.compare_exchange::<Opens, Nothing>(0, 0, &mut seen, &mut offer, &mut pen);
    drop(Word::<Line, u64, Law>::tracked(0, &mut pen));
    pen
}

impl Chronicle {
    /// A board without moves.
    pub(crate) fn new() -> Chronicle
        ensures { result.moves ≡ [] }
    {
        let (seen, mut first, _second) = Seen::open(Start::alone(), 0, 0);
        let head = Word::tracked(0, &mut first);
        let step = Move {
            candidate: 0,
            ballots: 0,
            comes: false,
        };
        let pen = fresh(&head, &seen, step);
        Chronicle {
            head,
            seen,
            home: Mark::of(&pen),
            pen,
            count: 0,
            last: None,
        }
    }

    /// Puts a move at the end.
    pub(crate) fn push(&mut self, step: Move)
        ensures { self.new ≡ record self.old { moves = self.old.moves ++ step ∷ [] } }
    {
        let ask = Ask {
            step,
            next: fresh(&self.head, &self.seen, step),
        };
        let mut offer: Offer<Line, u64, Law, Nothing> = self.seen.plain::<Nothing, Ask, Adds>(&ask);
        self.head
            .compare_exchange::<Adds, Nothing>(0, 0, &mut self.seen, &mut offer, &mut self.pen);
        self.pen = ask.next;
        self.count = self.count.saturating_add(1);
        self.last = Some(step);
    }

    /// No note of this board tells more than its moves, since nobody else can add one.
    pub(crate) fn covers(&mut self, note: &Note)
        requires { note.now.board ≡ self.old.board }
        ensures same { self.new ≡ self.old }
        ensures begins { Begins note.now.moves self.old.moves }
    {
        let step = Move {
            candidate: 0,
            ballots: 0,
            comes: false,
        };
        let mut both = self.seen.again();
        both.learn(&note.seen);
        let mut offer: Offer<Line, u64, Law, Nothing> = both.plain::<Nothing, Move, Holds>(&step);
        self.head
            .compare_exchange::<Holds, Nothing>(0, 0, &mut both, &mut offer, &mut self.pen);
    }

    /// A note of all moves.
    pub(crate) fn note(&self) -> Note
        ensures { result ≡ self.now }
    {
        Note {
            seen: self.seen.again(),
            home: self.home.again(),
            count: self.count,
            last: self.last,
        }
    }
}
