//! The rule of a book of moves, and what each step tells. These types are for the proofs, but for
//! [`Ask`], none has a value.
use crate::Move;
use crate::line::Line;
use logbook::{Gain, Pen, Plain, Play, Rule};

/// The key of each line is spent.
pub struct Law;

impl Rule<Line, u64> for Law {
    ghost use Rattle.std.specs.Prelude.{[]};
    ghost use base.Fml.{ftrue};
    ghost use Rattle.tally_board.specs.Law.{IsKept};

    ghost holds = { λ cells log. IsKept cells log };

    ghost first = { [] };

    ghost hinted = { λ n log. Unit {0} };

    ghost shows = { λ log. [] };

    ghost keeps = { λ names log. ftrue };

    ghost moves = { λ ask before after answer. Unit {0} };
}

/// Callers trade nothing.
pub struct Nothing;

impl Gain<Line, u64> for Nothing {
    ghost use base.Fml.{ftrue};

    ghost after = { λ names about answer. ftrue };
}

/// A step that opens a key.
pub struct Opens;

impl Play<Line, u64> for Opens {
    ghost use Rattle.tally_board.specs.Law.{Opened};

    ghost then = { Opened };
}

/// A step that spends a key on a move.
pub struct Adds;

impl Play<Line, u64> for Adds {
    ghost use Rattle.tally_board.specs.Law.{Added};

    ghost then = { Added };
}

/// A step that leaves the book as it is, by who holds a pen.
pub struct Holds;

impl Play<Line, u64> for Holds {
    ghost use Rattle.tally_board.specs.Law.{Held};

    ghost then = { Held };
}

/// A move, and the right to make the next one.
#[derive(Drop)]
pub struct Ask {
    pub step: Move,
    pub next: Pen,
}

impl Plain<Ask, Line, u64> for Adds {
    ghost use Rattle.std.specs.Prelude.{None};

    ghost ask = { λ a. record { key = 0; step = a.step; next = a.next.nib.key } };

    ghost state = { λ a. None };
}

impl Plain<Move, Line, u64> for Opens {
    ghost use Rattle.std.specs.Prelude.{None};

    ghost ask = { λ m. record { key = 0; step = m; next = 0 } };

    ghost state = { λ m. None };
}

impl Plain<Move, Line, u64> for Holds {
    ghost use Rattle.std.specs.Prelude.{None};

    ghost ask = { λ m. record { key = 0; step = m; next = 0 } };

    ghost state = { λ m. None };
}
