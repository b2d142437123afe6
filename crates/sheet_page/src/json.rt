// A sheet as JSON.
ghost use Rattle.std.specs.Prelude.{◌≡◌, ◌<◌, ◌≤◌, length};
ghost use Rattle.std.specs.List.{flat_map};
ghost use Rattle.plain_ballots.specs.declared.limits.TheConstants.{MOST_CANDIDATES};
ghost use Rattle.meek_rule.specs.Row.{HasRoomFor};
ghost use Rattle.piece_text.specs.Writing.{Writes};
ghost use Rattle.sheet_reader.specs.Form.{IsPrintable};
ghost use Rattle.sheet_page.specs.Json.{amounts_json, candidate_json, comma_at, head_json, iteration_at, iteration_json, json_of, lost_json, sheet_json, standing_json, truth, vote_json, won_json};
ghost use Rattle.sheet_page.specs.Prints.{Prints};
ghost use Rattle.sheet_page.specs.Values.{all_places};

use crate::cell::Cell;
use crate::pen::Pen;
use crate::piece::Piece;
use crate::values::{defeats, kept_of_one, state_word, step_word};
use byte_edge::{Failed, Sink};
use meek_rule::Row;
use sheet_reader::SheetValuesAt;
use sheet_words::{is_by_lots, last_seats};

/// Writes the values of a sheet as JSON, in one line.
pub(crate) fn write_json<const P: usize, K: Sink>(
    values: &SheetValuesAt<P>,
    sink: &mut K,
) -> Result<(), Failed>
    requires { IsPrintable P values.now }
    ensures { Writes K.written K.faults sink.old sink.new (json_of P values.now) result }
{
    let mut pen = Pen::new(sink);
    write_sheet_json(&mut pen, values);
    pen.piece(&Piece::Raw(b"\n"));
    pen.end()
}

/// Writes the values of a sheet as an object of JSON.
pub fn write_sheet_json<const P: usize, K: Sink>(pen: &mut Pen<'_, P, K>, values: &SheetValuesAt<P>)
    requires { IsPrintable P values.now }
    ensures { Prints K.Sink pen.old pen.new (sheet_json P values.now) }
{
    write_head(pen, values);
    write_candidates(pen, values);
    pen.piece(&Piece::Raw(b"],\"iterations\":["));
    write_iterations(pen, values);
    pen.piece(&Piece::Raw(b"]}"));
}

/// Title and numbers, up to the list of candidates.
fn write_head<const P: usize, K: Sink>(pen: &mut Pen<'_, P, K>, values: &SheetValuesAt<P>)
    ensures { Prints K.Sink pen.old pen.new (head_json values.now) }
{
    pen.write(&[
        Piece::Raw(b"{\"title\":"),
        Piece::Quoted(Cell::Bytes(values.title.bytes())),
        Piece::Raw(b",\"seats\":"),
        Piece::Number(values.seats as u64),
        Piece::Raw(b",\"ballots\":"),
        Piece::Number(values.ballots),
        Piece::Raw(b",\"candidates\":["),
    ]);
}

/// All candidates of the roll, with what became of them.
fn write_candidates<const P: usize, K: Sink>(pen: &mut Pen<'_, P, K>, values: &SheetValuesAt<P>)
    requires outcomes { length values.now.last ≡ length values.now.names }
    requires few { length values.now.names ≤ MOST_CANDIDATES }
    ensures { Prints K.Sink pen.old pen.new
        (flat_map (candidate_json values.now) (all_places (length values.now.names))) }
{
    for p in 0..values.names.len() {
        write_candidate(pen, values, p);
    }
}

/// The candidate at a place, and what became of it.
fn write_candidate<const P: usize, K: Sink>(
    pen: &mut Pen<'_, P, K>,
    values: &SheetValuesAt<P>,
    p: usize,
)
    requires outcomes { length values.now.last ≡ length values.now.names }
    requires few { length values.now.names ≤ MOST_CANDIDATES }
    requires place { p < length values.now.names }
    ensures { Prints K.Sink pen.old pen.new (candidate_json values.now p) }
{
    let name = values.names.get(p).bytes();
    let outcome = state_word(*values.last.get(p));
    pen.write(&[
        Piece::Raw(comma_at(p)),
        Piece::Raw(b"{\"number\":"),
        Piece::Number(p as u64 + 1),
        Piece::Raw(b",\"name\":"),
        Piece::Quoted(Cell::Bytes(name)),
        Piece::Raw(b",\"outcome\":"),
        Piece::Quoted(Cell::Bytes(outcome)),
        Piece::Raw(b"}"),
    ]);
}

fn write_iterations<const P: usize, K: Sink>(pen: &mut Pen<'_, P, K>, values: &SheetValuesAt<P>)
    requires { IsPrintable P values.now }
    ensures { Prints K.Sink pen.old pen.new
        (flat_map (iteration_at P values.now) (all_places (length values.now.rows))) }
{
    for i in 0..values.rows.len() {
        write_iteration(pen, values.seats, i, values.rows.get(i));
    }
}

/// An iteration, after a comma if it isn't the first.
fn write_iteration<const P: usize, K: Sink>(
    pen: &mut Pen<'_, P, K>,
    seats: u32,
    i: usize,
    row: &Row<P>,
)
    requires room { HasRoomFor (length row.now.states) row.now }
    requires few { length row.now.states ≤ MOST_CANDIDATES }
    ensures { Prints K.Sink pen.old pen.new (iteration_json P seats i row.now) }
{
    let lots = truth(is_by_lots(row));
    let last = last_seats(seats, row);
    write_amounts(pen, i, row, lots, u64::from(last));
    write_standings(pen, row);
    pen.piece(&Piece::Raw(b"]}"));
}

/// Numbers, amounts and step of an iteration, whether the lots decided and the last seats, up to its list of
/// candidates.
fn write_amounts<'x, const P: usize, K: Sink>(
    pen: &mut Pen<'_, P, K>,
    i: usize,
    row: &'x Row<P>,
    lots: &'x [u8],
    seats: u64,
)
    ensures { Prints K.Sink pen.old pen.new (amounts_json P i row.now lots.now seats) }
{
    pen.write(&[
        Piece::Raw(comma_at(i)),
        Piece::Raw(b"{\"round\":"),
        Piece::Number(row.round as u64),
        Piece::Raw(b",\"iteration\":"),
        Piece::Number(row.iteration),
        Piece::Raw(b",\"total\":"),
        Piece::Quoted(Cell::Amount(row.total)),
        Piece::Raw(b",\"quota\":"),
        Piece::Quoted(Cell::Amount(row.quota)),
        Piece::Raw(b",\"surplus\":"),
        Piece::Quoted(Cell::Amount(row.surplus)),
        Piece::Raw(b",\"step\":"),
        Piece::Quoted(Cell::Bytes(step_word(row.step))),
        Piece::Raw(b",\"by_lots\":"),
        Piece::Raw(lots),
        Piece::Raw(b",\"last_seats\":"),
        Piece::Number(seats),
        Piece::Raw(b",\"candidates\":["),
    ]);
}

/// All candidates in an iteration.
fn write_standings<const P: usize, K: Sink>(pen: &mut Pen<'_, P, K>, row: &Row<P>)
    requires room { HasRoomFor (length row.now.states) row.now }
    requires few { length row.now.states ≤ MOST_CANDIDATES }
    ensures { Prints K.Sink pen.old pen.new
        (flat_map (standing_json P row.now) (all_places (length row.now.states))) }
{
    for p in 0..row.states.len() {
        write_standing(pen, row, p);
    }
}

/// The candidate at a place in an iteration.
fn write_standing<const P: usize, K: Sink>(pen: &mut Pen<'_, P, K>, row: &Row<P>, p: usize)
    requires room { HasRoomFor (length row.now.states) row.now }
    requires few { length row.now.states ≤ MOST_CANDIDATES }
    requires place { p < length row.now.states }
    ensures { Prints K.Sink pen.old pen.new (standing_json P row.now p) }
{
    write_vote(pen, row, p);
    let elected = truth(*row.elected.get(p));
    let capped = truth(*row.capped.get(p));
    write_won(pen, elected, capped);
    let tied = truth(*row.tied.get(p));
    let defeated = truth(defeats(row.step, p as u32 + 1));
    write_lost(pen, tied, defeated);
}

/// Number, state, keep value and vote, up to the marks.
fn write_vote<const P: usize, K: Sink>(pen: &mut Pen<'_, P, K>, row: &Row<P>, p: usize)
    requires room { HasRoomFor (length row.now.states) row.now }
    requires place { p < length row.now.states }
    requires few { length row.now.states ≤ MOST_CANDIDATES }
    ensures { Prints K.Sink pen.old pen.new (vote_json P row.now p) }
{
    let state = state_word(*row.states.get(p));
    let keep = kept_of_one(*row.keeps.get(p));
    pen.write(&[
        Piece::Raw(comma_at(p)),
        Piece::Raw(b"{\"number\":"),
        Piece::Number(p as u64 + 1),
        Piece::Raw(b",\"state\":"),
        Piece::Quoted(Cell::Bytes(state)),
        Piece::Raw(b",\"keep\":"),
        Piece::Quoted(Cell::Amount(keep)),
        Piece::Raw(b",\"vote\":"),
        Piece::Quoted(Cell::Amount(*row.votes.get(p))),
    ]);
}

/// The marks of who is elected and whose keep value is capped.
fn write_won<'x, const P: usize, K: Sink>(
    pen: &mut Pen<'_, P, K>,
    elected: &'x [u8],
    capped: &'x [u8],
)
    ensures { Prints K.Sink pen.old pen.new (won_json elected.now capped.now) }
{
    pen.write(&[
        Piece::Raw(b",\"elected\":"),
        Piece::Raw(elected),
        Piece::Raw(b",\"capped\":"),
        Piece::Raw(capped),
    ]);
}

/// The marks of who is tied and who is defeated.
fn write_lost<'x, const P: usize, K: Sink>(
    pen: &mut Pen<'_, P, K>,
    tied: &'x [u8],
    defeated: &'x [u8],
)
    ensures { Prints K.Sink pen.old pen.new (lost_json tied.now defeated.now) }
{
    pen.write(&[
        Piece::Raw(b",\"tied\":"),
        Piece::Raw(tied),
        Piece::Raw(b",\"defeated\":"),
        Piece::Raw(defeated),
        Piece::Raw(b"}"),
    ]);
}

/// What is before the item at a place of a list, from 0.
pub fn comma_at(p: usize) -> &'static [u8]
    ensures { result.now ≡ comma_at p }
{
    if p == 0 { b"" } else { b"," }
}

/// A mark as JSON writes it.
pub fn truth(mark: bool) -> &'static [u8]
    ensures { result.now ≡ truth mark }
{
    if mark { b"true" } else { b"false" }
}
