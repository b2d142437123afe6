// The bars of a picture: a candidate's vote each, below its label.
ghost use Rattle.std.specs.Prelude.{◌≡◌, ◌<◌, ◌≤◌, length};
ghost use Rattle.plain_ballots.specs.declared.limits.TheConstants.{MOST_CANDIDATES};
ghost use Rattle.meek_rule.specs.Row.{HasRoomFor};
ghost use Rattle.page_tree.specs.Print.{printed};
ghost use Rattle.sheet_reader.specs.Form.{IsPrintable};
ghost use Rattle.sheet_page.specs.Picture.{bar, bar_at, label, label_at, rectangle, rectangle_at};
ghost use Rattle.sheet_page.specs.RoundEnds.{settled};
ghost use Rattle.sheet_page.specs.Prints.{Prints};
ghost use Rattle.sheet_page.specs.Trees.{print_each};
ghost use Rattle.sheet_page.specs.Values.{all_places};

use crate::cell::Cell;
use crate::pen::Pen;
use crate::piece::Piece;
use crate::ranks::{bars_before, has_bar};
use crate::values::state_word;
use crate::widths::scaled;
use byte_edge::Sink;
use candidate_roll::States;
use fixed_place::Amount;
use meek_rule::Row;
use sheet_reader::SheetValuesAt;

/// Writes the bars of a round, a candidate's below the other's; `full` units have the whole width.
pub(crate) fn write_bars<const P: usize, K: Sink>(
    pen: &mut Pen<'_, P, K>,
    values: &SheetValuesAt<P>,
    full: u64,
    row: &Row<P>,
    behind: &States,
)
    requires printable { IsPrintable P values.now }
    requires room { HasRoomFor (length values.now.names) row.now }
    requires states { length behind.now ≡ length values.now.names }
    ensures { Prints K.Sink pen.old pen.new
        (print_each (bar_at P values.now full (settled row.now behind.now)) (all_places (length values.now.names))) }
{
    for p in 0..values.names.len() {
        write_bar_at(pen, values, full, row, behind, p);
    }
}

/// The bar of the candidate at a place, if it has one.
fn write_bar_at<const P: usize, K: Sink>(
    pen: &mut Pen<'_, P, K>,
    values: &SheetValuesAt<P>,
    full: u64,
    row: &Row<P>,
    behind: &States,
    p: usize,
)
    requires printable { IsPrintable P values.now }
    requires room { HasRoomFor (length values.now.names) row.now }
    requires states { length behind.now ≡ length values.now.names }
    requires place { p < length values.now.names }
    ensures { Prints K.Sink pen.old pen.new (printed (bar_at P values.now full (settled row.now behind.now) p)) }
{
    if has_bar(row, p) {
        write_bar(pen, values, full, row, behind, p);
    }
}

/// A candidate's vote at the end of a round, and what it is after it.
fn write_bar<const P: usize, K: Sink>(
    pen: &mut Pen<'_, P, K>,
    values: &SheetValuesAt<P>,
    full: u64,
    row: &Row<P>,
    behind: &States,
    p: usize,
)
    requires printable { IsPrintable P values.now }
    requires room { HasRoomFor (length values.now.names) row.now }
    requires states { length behind.now ≡ length values.now.names }
    requires place { p < length values.now.names }
    ensures { Prints K.Sink pen.old pen.new (printed (bar P values.now full (settled row.now behind.now) p)) }
{
    write_label_at(pen, values, row, behind, p);
    write_rectangle_at(pen, full, row, behind, p);
}

/// The label of the candidate at a place.
fn write_label_at<const P: usize, K: Sink>(
    pen: &mut Pen<'_, P, K>,
    values: &SheetValuesAt<P>,
    row: &Row<P>,
    behind: &States,
    p: usize,
)
    requires printable { IsPrintable P values.now }
    requires room { HasRoomFor (length values.now.names) row.now }
    requires states { length behind.now ≡ length values.now.names }
    requires place { p < length values.now.names }
    ensures { Prints K.Sink pen.old pen.new (printed (label_at P values.now (settled row.now behind.now) p)) }
{
    let state = state_word(*behind.get(p));
    let name = values.names.get(p).bytes();
    write_label(
        pen,
        bars_before(row, p) as u64 * 36 + 16,
        name,
        p as u64 + 1,
        state,
        *row.votes.get(p),
    );
}

/// The bar of the candidate at a place.
fn write_rectangle_at<const P: usize, K: Sink>(
    pen: &mut Pen<'_, P, K>,
    full: u64,
    row: &Row<P>,
    behind: &States,
    p: usize,
)
    requires room { HasRoomFor (length row.now.states) row.now }
    requires few { length row.now.states ≤ MOST_CANDIDATES }
    requires states { length behind.now ≡ length row.now.states }
    requires place { p < length row.now.states }
    ensures { Prints K.Sink pen.old pen.new (printed (rectangle_at full (settled row.now behind.now) p)) }
{
    let state = state_word(*behind.get(p));
    let length = scaled(full, *row.votes.get(p));
    write_rectangle(pen, bars_before(row, p) as u64 * 36 + 21, length, state);
}

/// State, vote, name and number, so many points down.
fn write_label<'x, const P: usize, K: Sink>(
    pen: &mut Pen<'_, P, K>,
    y: u64,
    name: &'x [u8],
    number: u64,
    state: &'x [u8],
    vote: Amount<P>,
)
    ensures { Prints K.Sink pen.old pen.new (printed (label P y name.now number state.now vote.entry)) }
{
    pen.write(&[
        Piece::Begin(b"text"),
        Piece::With(b"class", Cell::Bytes(state)),
        Piece::With(b"y", Cell::Count(y)),
        Piece::Within,
        Piece::Text(Cell::Bytes(state)),
        Piece::Text(Cell::Bytes(b" ")),
        Piece::Text(Cell::Amount(vote)),
        Piece::Text(Cell::Bytes(b" ")),
        Piece::Start(b"tspan"),
        Piece::Text(Cell::Bytes(name)),
        Piece::End(b"tspan"),
        Piece::Text(Cell::Bytes(b" (")),
        Piece::Text(Cell::Count(number)),
        Piece::Text(Cell::Bytes(b")")),
        Piece::End(b"text"),
    ]);
}

/// A bar, so many points down and so many long.
fn write_rectangle<const P: usize, K: Sink>(
    pen: &mut Pen<'_, P, K>,
    y: u64,
    length: u64,
    state: &[u8],
)
    ensures { Prints K.Sink pen.old pen.new (printed (rectangle y length state.now)) }
{
    pen.write(&[
        Piece::Begin(b"rect"),
        Piece::With(b"class", Cell::Bytes(state)),
        Piece::With(b"y", Cell::Count(y)),
        Piece::With(b"width", Cell::Count(length)),
        Piece::With(b"height", Cell::Bytes(b"12")),
        Piece::Within,
        Piece::End(b"rect"),
    ]);
}
