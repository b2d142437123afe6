// What a line says of a round.
ghost use Rattle.std.specs.Prelude.{◌≡◌, ◌+◌, ◌∷◌, [], ◌<◌, ◌≤◌, decimal, length, slice_index};
ghost use Rattle.plain_ballots.specs.declared.limits.TheConstants.{MOST_BALLOTS};
ghost use Rattle.candidate_roll.specs.State.{state_at};
ghost use Rattle.fixed_place.specs.Text.{text_of};
ghost use Rattle.meek_rule.specs.Row.{HasRoomFor};
ghost use Rattle.piece_text.specs.Writing.{Writes};
ghost use Rattle.sheet_reader.specs.Form.{IsPrintable};
ghost use Rattle.sheet_minutes.specs.Columns.{at_right};
ghost use Rattle.sheet_minutes.specs.Rounds.{left_over};
ghost use Rattle.sheet_minutes.specs.Table.{IsAbout, cell, mark};

use crate::columns::MARK_COLUMNS;
use crate::entry::Entry;
use crate::piece::Piece;
use crate::pieces::{write_piece, write_right_votes};
use crate::rounds::{left_over, states_behind};
use byte_edge::{Failed, Sink};
use candidate_roll::{State, States};
use meek_rule::Row;
use piece_text::write_bytes;
use sheet_reader::SheetValuesAt;

/// Writes what a line says of the round whose last iteration is at a place.
pub(crate) fn write_cell<const P: usize, K: Sink>(
    values: &SheetValuesAt<P>,
    width: usize,
    entry: Entry,
    i: usize,
    sink: &mut K,
) -> Result<(), Failed>
    requires printable { IsPrintable P values.now }
    requires about { IsAbout (length values.now.names) entry }
    requires narrow { width ≤ 20 }
    requires place { i < length values.now.rows }
    ensures { Writes K.written K.faults sink.old sink.new (cell P values.now width entry i) result }
{
    let row = values.rows.get(i);
    let wide = width + MARK_COLUMNS;
    match entry {
        Entry::Round => write_number(row, wide, sink),
        Entry::Quota => write_quota(row, wide, sink),
        Entry::LeftOver => write_left_over(values.ballots, row, wide, sink),
        Entry::Candidate(p) => write_standing(row, states_behind(values, i), p, width, sink),
    }
}

fn write_number<const P: usize, K: Sink>(
    row: &Row<P>,
    width: usize,
    sink: &mut K,
) -> Result<(), Failed>
    ensures { Writes K.written K.faults sink.old sink.new (at_right width (decimal row.now.round)) result }
{
    write_piece(&Piece::RightCount(width, row.round as u64), sink)
}

fn write_quota<const P: usize, K: Sink>(
    row: &Row<P>,
    width: usize,
    sink: &mut K,
) -> Result<(), Failed>
    ensures { Writes K.written K.faults sink.old sink.new (at_right width (text_of P row.now.quota)) result }
{
    write_right_votes(width, row.quota, sink)
}

fn write_left_over<const P: usize, K: Sink>(
    ballots: u64,
    row: &Row<P>,
    width: usize,
    sink: &mut K,
) -> Result<(), Failed>
    requires { ballots ≤ MOST_BALLOTS }
    ensures { Writes K.written K.faults sink.old sink.new
        (at_right width (text_of P (left_over P ballots row.now))) result }
{
    let left = left_over(ballots, row.total);
    write_right_votes(width, left, sink)
}

/// Writes what the candidate at a place is after a round, and its vote at the end of it.
fn write_standing<const P: usize, K: Sink>(
    row: &Row<P>,
    behind: &States,
    p: usize,
    width: usize,
    sink: &mut K,
) -> Result<(), Failed>
    requires room { HasRoomFor (length row.now.states) row.now }
    requires states { length behind.now ≡ length row.now.states }
    requires place { p < length row.now.states }
    ensures { Writes K.written K.faults sink.old sink.new
        (32 ∷ mark (state_at behind.now p) ∷ 32 ∷ at_right width (text_of P (slice_index row.now.votes p))) result }
{
    let vote = *row.votes.get(p);
    write_mark(*behind.get(p), sink)?;
    write_right_votes(width, vote, sink)
}

/// Writes the mark of a state, between spaces.
fn write_mark<K: Sink>(state: State, sink: &mut K) -> Result<(), Failed>
    ensures { Writes K.written K.faults sink.old sink.new (32 ∷ mark state ∷ 32 ∷ []) result }
{
    match state {
        State::Hopeful => write_bytes(b" H ", sink),
        State::Elected => write_bytes(b" E ", sink),
        State::Defeated => write_bytes(b" D ", sink),
        State::Withdrawn => write_bytes(b" W ", sink),
    }
}
