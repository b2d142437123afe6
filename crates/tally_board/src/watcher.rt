// One who reads a board.
ghost use Rattle.std.specs.Prelude.{◌≡◌, ◌<◌, ◌⊎◌, ◌^◌, ◌-◌, length, OnOk, OnErr};
ghost use Rattle.tally_board.specs.Begins.{Begins};
ghost use Rattle.tally_board.specs.Moves.{totals_after};

use crate::board::Board;
use crate::board_view::BoardView;
use crate::rule::{Begun, Look};
use crate::story::Story;
use crate::{NoReading, Note, Totals};
use left_right::reader::Reader;
use std::marker::Model;
use std::snapshot::Snapshot;

pub(crate) type Inner = Reader<Board, BoardView, Begun>;

/// One who reads a board. Contracts see which board it is, the number of candidates, the moves that it
/// has seen, those of the longest note that it learnt, and how often it was refused.
#[derive(Drop)]
pub struct Watcher {
    // It is away only while a call reads.
    pub(crate) reader: Option<Inner>,
    pub(crate) told: Note,
    pub(crate) seen: Snapshot<Story>,
    // Of all moves that were seen but the last.
    pub(crate) before: Note,
    pub(crate) refused: u64,
}

impl Model for Watcher {
    ghost use Rattle.std.specs.Prelude.{◌≡◌};
    ghost use Rattle.left_right.specs.Sides.{view as known};
    ghost use Rattle.tally_board.specs.Sight.{Sight, IsWatcher, candidates_told};
    ghost use Rattle.tally_board.specs.Stories.{moves_of};
    ghost use Rattle.tally_board.specs.There.{or_else, IsThere};
    ghost use Rattle.tally_board.specs.Told.{front};

    ghost Value = { Sight };

    ghost view = { λ w. record {
      board = w.told.board;
      candidates = or_else 0 (λ r. candidates_told (known r.place)) w.reader;
      seen = moves_of w.seen.value;
      told = w.told.moves;
      refused = w.refused;
    } };

    ghost invariant = { λ w. IsThere
        (λ r. IsWatcher (known r.place) w.told.board (moves_of w.seen.value)) w.reader
        × (w.before ≡ record { board = w.told.board; moves = front (moves_of w.seen.value) }) };
}

impl Watcher {
    /// How often a read was refused. It stays at the greatest number.
    pub fn refused(&self) -> u64
        ensures { result ≡ self.now.refused }
    {
        self.refused
    }

    /// Takes in a note: from then on, each read gives the totals after moves that begin with those of
    /// the note.
    pub fn learn(&mut self, note: Note)
        requires { note.board ≡ self.old.board }
        ensures same { self.new ≡ record self.old { told = self.new.told } }
        ensures before { Begins self.old.told self.new.told }
        ensures note { Begins note.moves self.new.told }
    {
        self.told = self.told.longer(note);
    }

    /// Reads the totals after the moves that are seen then: those that were seen before and those of
    /// each note that was learnt, and what follows them. It takes no memory, and waits for nobody. It is
    /// refused where the board can't be entered, or where its moves are as many as the greatest number.
    pub fn read(&mut self, into: &mut Totals) -> Result<(), NoReading>
        requires { length into.old ≡ self.old.candidates }
        ensures board { self.new.board ≡ self.old.board }
        ensures candidates { self.new.candidates ≡ self.old.candidates }
        ensures told { self.new.told ≡ self.old.told }
        ensures learnt { OnOk result (Begins self.old.told self.new.seen) }
        ensures seen { Begins self.old.seen self.new.seen }
        ensures totals { OnOk result (into.new ≡ totals_after self.old.candidates self.new.seen) }
        ensures length { length into.new ≡ length into.old }
        ensures accepted { OnOk result (self.new.refused ≡ self.old.refused) }
        ensures refused { OnErr result
            ((self.old.refused < self.new.refused) ⊎ (self.new.refused ≡ 2 ^ 64 - 1)) }
        ensures unchanged { OnErr result
            ((into.new ≡ into.old) × (self.new.seen ≡ self.old.seen)) }
    {
        match self.reader.take() {
            None => unreachable!(),
            Some(reader) => match reader.enter_as::<Look>() {
                Ok(reading) => {
                    if !reading.get().shows(&self.told) {
                        self.reader = Some(reading.leave());
                        self.refused = one_more(self.refused);
                        return Err(NoReading);
                    }
                    into.copy_from(&reading.get().totals);
                    self.seen = Snapshot::of(&reading.get().story);
                    self.before = reading.get().before.again();
                    self.reader = Some(reading.leave());
                    Ok(())
                }
                Err(reader) => {
                    self.reader = Some(reader);
                    self.refused = one_more(self.refused);
                    Err(NoReading)
                }
            },
        }
    }
}

// It stays at the greatest number.
fn one_more(count: u64) -> u64
    ensures { (count < result) ⊎ (result ≡ 2 ^ 64 - 1) }
{
    count.saturating_add(1)
}
