// The one who changes a board.
ghost use Rattle.std.specs.Prelude.{◌≡◌, [], ◌∷◌, ◌++◌, MatchResult};
ghost use Rattle.tally_board.specs.Begins.{Begins};
ghost use Rattle.tally_board.specs.Moves.{CanMove, totals_after};
ghost use Rattle.tally_board.specs.Told.{front};

use crate::board::Board;
use crate::board_view::BoardView;
use crate::chronicle::Chronicle;
use crate::entry::Entry;
use crate::rule::{Begun, Look};
use crate::{Move, MoveBack, Note, Totals, Watcher};
use left_right::writer::Writer;
use std::marker::Model;
use std::mem;
use std::sync::Wait;

pub(crate) type Inner = Writer<Board, Entry, BoardView, Begun>;

/// The one who changes a board. Contracts see which board it is, the number of candidates, the moves
/// that it has published, and those that are pending.
///
/// It is not `Drop`: end it by [`close`](Scribe::close).
pub struct Scribe {
    // It is away only while a call publishes.
    pub(crate) writer: Option<Inner>,
    // All moves, published or pending.
    pub(crate) chronicle: Chronicle,
}

impl Model for Scribe {
    ghost use Rattle.std.specs.Prelude.{◌≡◌, drop};
    ghost use Rattle.left_right.specs.Sides.{view as known};
    ghost use Rattle.tally_board.specs.Desk.{Desk, no_desk, desk_of, IsScribe};
    ghost use Rattle.tally_board.specs.There.{or_else, IsThere};

    ghost Value = { Desk };

    ghost view = { λ s. or_else no_desk
        (λ w. desk_of s.chronicle.board w.desk.shown.value (drop w.behind w.log.items)) s.writer };

    ghost invariant = { λ s. IsThere
        (λ w. IsScribe (known w.desk.place) w.desk.shown.value (drop w.behind w.log.items) s.chronicle)
        s.writer };
}

impl Scribe {
    /// Takes a move, which is pending until the next [`publish`](Scribe::publish).
    pub fn append(&mut self, step: Move) -> Result<(), MoveBack>
        requires { CanMove (totals_after self.old.candidates (self.old.published ++ self.old.pending)) step }
        ensures { MatchResult result
            (λ _. self.new ≡ record self.old { pending = self.old.pending ++ step ∷ [] })
            (λ back. (back.step ≡ step) × (self.new ≡ self.old)) }
    {
        let entry = Entry {
            step,
            before: self.chronicle.note(),
        };
        match &mut self.writer {
            None => unreachable!(),
            Some(writer) => match writer.append(entry) {
                Ok(()) => {
                    self.chronicle.push(step);
                    Ok(())
                }
                Err(entry) => Err(MoveBack { step: entry.step }),
            },
        }
    }

    /// Publishes the pending moves, all at once, and gives a note of all published moves. It waits for
    /// those who still look at the board as it was before the last call.
    pub fn publish<R: Wait>(&mut self, rt: &R) -> Note
        ensures published { self.new
            ≡ record self.old { published = self.old.published ++ self.old.pending; pending = [] } }
        ensures note { (result.board ≡ self.new.board) × (result.moves ≡ self.new.published) }
    {
        let note = self.chronicle.note();
        match self.writer.take() {
            None => unreachable!(),
            Some(writer) => {
                let (writer, done) = writer.publish_as::<Look, R>(rt);
                if done.is_err() {
                    unreachable!();
                }
                match mem::replace(&mut self.writer, Some(writer)) {
                    None => note,
                    Some(_) => unreachable!(),
                }
            }
        }
    }

    /// The totals after the published moves.
    pub fn totals(&self) -> &Totals
        ensures { result.now ≡ totals_after self.now.candidates self.now.published }
    {
        match &self.writer {
            None => unreachable!(),
            Some(writer) => &writer.published().totals,
        }
    }

    /// Says of a watcher of this board that the scribe took, in this order, the moves that the watcher
    /// has seen, all but the last, and those of the longest note that it learnt. Nothing changes.
    pub fn vouch_for(&mut self, watcher: &Watcher)
        requires { watcher.now.board ≡ self.old.board }
        ensures same { self.new ≡ self.old }
        ensures seen { Begins (front watcher.now.seen) (self.old.published ++ self.old.pending) }
        ensures told { Begins watcher.now.told (self.old.published ++ self.old.pending) }
    {
        self.chronicle.covers(&watcher.before);
        self.chronicle.covers(&watcher.told);
    }

    /// Ends the board. It waits for those who look at it.
    pub fn close<R: Wait>(self, rt: &R) {
        let Self {
            writer,
            chronicle: _chronicle,
        } = self;
        match writer {
            None => unreachable!(),
            Some(writer) => drop(writer.take(rt)),
        }
    }
}
