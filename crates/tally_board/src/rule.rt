//! The rule of a board, and what each step tells. These types are for the proofs: none has a value.
ghost use Rattle.tally_board.specs.Rule.{Keeps, Looks, newcomer, named};

use crate::board::Board;
use crate::board_view::BoardView;
use atomic_table::{Join, Split};
use crossbeam_utils::rule::{Outcome, Protocol};

/// The moves that each has seen begin those that the board shows.
pub struct Begun;

impl Protocol<Board, BoardView> for Begun {
    ghost holds = { Keeps };

    ghost first = { newcomer };
}

/// A look at the board, or a change of it: all its moves are seen from then on.
pub struct Look;

impl Outcome<Board, BoardView> for Look {
    ghost then = { Looks };
}

/// The scribe tells all that it knows.
pub struct Tell;

impl Split<BoardView> for Tell {
    ghost left = { λ v. v };

    ghost right = { λ v. v };
}

/// A new watcher is told which board it is, and the number of candidates.
pub struct Name;

impl Join<BoardView> for Name {
    ghost both = { named };

    ghost spent = { newcomer };
}
