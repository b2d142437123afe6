// The iterations of a round, folded away.
ghost use Rattle.std.specs.Prelude.{◌≡◌, ◌+◌, ◌<◌, ◌≤◌, length};
ghost use Rattle.plain_ballots.specs.declared.limits.TheConstants.{MOST_CANDIDATES};
ghost use Rattle.meek_rule.specs.Row.{HasRoomFor};
ghost use Rattle.page_tree.specs.Print.{printed};
ghost use Rattle.sheet_reader.specs.Form.{IsPrintable};
ghost use Rattle.sheet_minutes.specs.Rounds.{row_at};
ghost use Rattle.sheet_page.specs.Iterations.{concerns, folded, is_out, iteration, iteration_at, iteration_head, iteration_line, keep_note, standing, standing_at, standing_of, state_note, summary};
ghost use Rattle.sheet_page.specs.Prints.{Prints};
ghost use Rattle.sheet_page.specs.Trees.{print_each};
ghost use Rattle.sheet_page.specs.Values.{all_places};

use crate::cell::Cell;
use crate::pen::Pen;
use crate::piece::Piece;
use crate::ranks::is_nothing;
use crate::stretches::first_of;
use crate::values::{kept_of_one, step_word};
use byte_edge::Sink;
use candidate_roll::State;
use fixed_place::{Amount, scale_of};
use line_text::Line;
use meek_rule::Row;
use sheet_reader::SheetValuesAt;

/// A keep value of 1, in units.
/// The iterations of the round that ends at a place.
pub(crate) fn write_folded<const P: usize, K: Sink>(
    pen: &mut Pen<'_, P, K>,
    values: &SheetValuesAt<P>,
    last: usize,
)
    requires printable { IsPrintable P values.now }
    requires place { last < length values.now.rows }
    ensures { Prints K.Sink pen.old pen.new (printed (folded P values.now last)) }
{
    let row = values.rows.get(last);
    pen.open(b"details");
    write_summary(pen, row.round);
    write_iterations_of(pen, values, last);
    pen.close(b"details");
}

/// What is seen of iterations that are folded away.
fn write_summary<const P: usize, K: Sink>(pen: &mut Pen<'_, P, K>, round: u32)
    ensures { Prints K.Sink pen.old pen.new (printed (summary round)) }
{
    pen.write(&[
        Piece::Start(b"summary"),
        Piece::Text(Cell::Bytes(b"Iterations of round ")),
        Piece::Text(Cell::Count(round as u64)),
        Piece::End(b"summary"),
    ]);
}

/// The iterations of the round that ends at a place, from its first one on.
fn write_iterations_of<const P: usize, K: Sink>(
    pen: &mut Pen<'_, P, K>,
    values: &SheetValuesAt<P>,
    last: usize,
)
    requires printable { IsPrintable P values.now }
    requires place { last < length values.now.rows }
    ensures { Prints K.Sink pen.old pen.new (print_each (iteration_at P values.now last) (all_places (last + 1))) }
{
    let first = first_of(values.rows.items(), last);
    for i in first..last + 1 {
        write_iteration_at(pen, values, i);
    }
}

/// The iteration at a place.
fn write_iteration_at<const P: usize, K: Sink>(
    pen: &mut Pen<'_, P, K>,
    values: &SheetValuesAt<P>,
    i: usize,
)
    requires printable { IsPrintable P values.now }
    requires place { i < length values.now.rows }
    ensures { Prints K.Sink pen.old pen.new (printed (iteration P values.now (row_at values.now.rows i))) }
{
    write_iteration(pen, values, values.rows.get(i));
}

/// An iteration: a line of its own, and the candidates that it concerns.
fn write_iteration<const P: usize, K: Sink>(
    pen: &mut Pen<'_, P, K>,
    values: &SheetValuesAt<P>,
    row: &Row<P>,
)
    requires printable { IsPrintable P values.now }
    requires room { HasRoomFor (length values.now.names) row.now }
    ensures { Prints K.Sink pen.old pen.new (printed (iteration P values.now row.now)) }
{
    pen.open(b"dl");
    write_iteration_head(pen, row);
    write_standings(pen, values, row);
    pen.close(b"dl");
}

/// The line of an iteration.
fn write_iteration_head<const P: usize, K: Sink>(pen: &mut Pen<'_, P, K>, row: &Row<P>)
    ensures { Prints K.Sink pen.old pen.new (printed (iteration_head P row.now)) }
{
    let step = step_word(row.step);
    write_iteration_line(pen, row.iteration, row.total, row.quota, row.surplus, step);
}

/// Number, amounts and step of an iteration.
fn write_iteration_line<const P: usize, K: Sink>(
    pen: &mut Pen<'_, P, K>,
    iteration: u64,
    total: Amount<P>,
    quota: Amount<P>,
    surplus: Amount<P>,
    step: &[u8],
)
    ensures { Prints K.Sink pen.old pen.new
        (printed (iteration_line P iteration total.entry quota.entry surplus.entry step.now)) }
{
    pen.write(&[
        Piece::Start(b"dt"),
        Piece::Text(Cell::Bytes(b"Iteration ")),
        Piece::Text(Cell::Count(iteration)),
        Piece::Text(Cell::Bytes(b": total ")),
        Piece::Text(Cell::Amount(total)),
        Piece::Text(Cell::Bytes(b", quota ")),
        Piece::Text(Cell::Amount(quota)),
        Piece::Text(Cell::Bytes(b", surplus ")),
        Piece::Text(Cell::Amount(surplus)),
        Piece::Text(Cell::Bytes(b", step ")),
        Piece::Text(Cell::Bytes(step)),
        Piece::End(b"dt"),
    ]);
}

/// The candidates that an iteration concerns.
fn write_standings<const P: usize, K: Sink>(
    pen: &mut Pen<'_, P, K>,
    values: &SheetValuesAt<P>,
    row: &Row<P>,
)
    requires printable { IsPrintable P values.now }
    requires room { HasRoomFor (length values.now.names) row.now }
    ensures { Prints K.Sink pen.old pen.new
        (print_each (standing_at P row.now) (all_places (length values.now.names))) }
{
    for p in 0..values.names.len() {
        write_standing_at(pen, row, p);
    }
}

/// The candidate at a place, if the iteration concerns it.
fn write_standing_at<const P: usize, K: Sink>(pen: &mut Pen<'_, P, K>, row: &Row<P>, p: usize)
    requires room { HasRoomFor (length row.now.states) row.now }
    requires few { length row.now.states ≤ MOST_CANDIDATES }
    requires place { p < length row.now.states }
    ensures { Prints K.Sink pen.old pen.new (printed (standing_at P row.now p)) }
{
    if concerns(row, p) {
        write_standing_of(pen, row, p);
    }
}

/// Whether an iteration concerns the candidate at a place: it does not where the candidate is out of the count,
/// keeps nothing and has no vote.
fn concerns<const P: usize>(row: &Row<P>, p: usize) -> bool
    requires room { HasRoomFor (length row.now.states) row.now }
    requires place { p < length row.now.states }
    ensures { result ≡ concerns row.now p }
{
    let keep = *row.keeps.get(p);
    let vote = *row.votes.get(p);
    !(is_out(*row.states.get(p)) && is_nothing(keep.units()) && is_nothing(vote.units()))
}

fn is_out(state: State) -> bool
    ensures { result ≡ is_out state }
{
    match state {
        State::Hopeful => false,
        State::Elected => false,
        State::Defeated => true,
        State::Withdrawn => true,
    }
}

/// A candidate's number, its state and keep value before an iteration, and its vote in it.
fn write_standing_of<const P: usize, K: Sink>(pen: &mut Pen<'_, P, K>, row: &Row<P>, p: usize)
    requires room { HasRoomFor (length row.now.states) row.now }
    requires few { length row.now.states ≤ MOST_CANDIDATES }
    requires place { p < length row.now.states }
    ensures { Prints K.Sink pen.old pen.new (printed (standing_of P row.now p)) }
{
    let state = state_note(*row.states.get(p));
    let keep = keep_note(kept_of_one(*row.keeps.get(p)));
    write_standing(pen, p as u64 + 1, state, keep.bytes(), *row.votes.get(p));
}

/// The state before an iteration, where it is not hopeful.
fn state_note(state: State) -> &'static [u8]
    ensures { result.now ≡ state_note state }
{
    match state {
        State::Hopeful => b"",
        State::Elected => b" elected",
        State::Defeated => b" defeated",
        State::Withdrawn => b" withdrawn",
    }
}

/// The keep value before an iteration, where it is not 1.
#[tactic(auto, using(line_text::proofs::Lengths::lengths))]
fn keep_note<const P: usize>(keep: Amount<P>) -> Line
    ensures { result ≡ keep_note P keep.entry }
{
    let mut line = Line::new();
    if keep.units() == scale_of::<P>() {
        return line;
    }
    line.push_bytes(b", keeps ");
    line.push_amount(keep);
    line
}

fn write_standing<'x, const P: usize, K: Sink>(
    pen: &mut Pen<'_, P, K>,
    number: u64,
    state: &'x [u8],
    keep: &'x [u8],
    vote: Amount<P>,
)
    ensures { Prints K.Sink pen.old pen.new (printed (standing P number state.now keep.now vote.entry)) }
{
    pen.write(&[
        Piece::Start(b"dd"),
        Piece::Text(Cell::Count(number)),
        Piece::Text(Cell::Bytes(state)),
        Piece::Text(Cell::Bytes(keep)),
        Piece::Text(Cell::Bytes(b": ")),
        Piece::Text(Cell::Amount(vote)),
        Piece::End(b"dd"),
    ]);
}
