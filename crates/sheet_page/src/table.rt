// The table of votes: a line for each candidate, and a column for each round.
ghost use Rattle.std.specs.Prelude.{◌≡◌, ◌<◌, ◌≤◌, ◌+◌, codes, length};
ghost use Rattle.plain_ballots.specs.declared.limits.TheConstants.{MOST_CANDIDATES};
ghost use Rattle.page_tree.specs.Print.{opening, printed};
ghost use Rattle.sheet_reader.specs.Form.{IsPrintable};
ghost use Rattle.sheet_minutes.specs.Table.{IsAbout};
ghost use Rattle.sheet_minutes.specs.Rounds.{left_over, row_at};
ghost use Rattle.sheet_page.specs.Links.{link_to};
ghost use Rattle.sheet_page.specs.Prints.{Prints};
ghost use Rattle.sheet_page.specs.RoundTable.{amount_cell, candidate_head, candidate_row, caption, cell_at, first_head, frame_attributes, head_row, left_row, line_head, quota_row, round_cell, round_head, rounds_table, table_body, table_frame, table_head};
ghost use Rattle.sheet_page.specs.Trees.{print_each};
ghost use Rattle.sheet_page.specs.Values.{name_at, all_places};

use crate::PartNames;
use crate::cell::Cell;
use crate::figures::{write_amount, write_vote};
use crate::links::link_to;
use crate::pen::Pen;
use crate::piece::Piece;
use byte_edge::Sink;
use meek_rule::Row;
use sheet_minutes::{Entry, ends_round, left_over, states_behind};
use sheet_reader::SheetValuesAt;

/// Writes the table of votes in a frame.
pub(crate) fn write_frame<const P: usize, K: Sink>(
    pen: &mut Pen<'_, P, K>,
    names: PartNames,
    values: &SheetValuesAt<P>,
)
    requires printable { IsPrintable P values.now }
    ensures { Prints K.Sink pen.old pen.new (printed (table_frame names P values.now)) }
{
    write_frame_start(pen);
    write_table(pen, names, values);
    pen.close(b"div");
}

fn write_frame_start<const P: usize, K: Sink>(pen: &mut Pen<'_, P, K>)
    ensures { Prints K.Sink pen.old pen.new (opening (codes "div") frame_attributes) }
{
    pen.write(&[
        Piece::Begin(b"div"),
        Piece::With(b"tabindex", Cell::Bytes(b"0")),
        Piece::With(b"role", Cell::Bytes(b"region")),
        Piece::With(
            b"aria-label",
            Cell::Bytes(b"Votes at the end of each round"),
        ),
        Piece::Within,
    ]);
}

fn write_table<const P: usize, K: Sink>(
    pen: &mut Pen<'_, P, K>,
    names: PartNames,
    values: &SheetValuesAt<P>,
)
    requires printable { IsPrintable P values.now }
    ensures { Prints K.Sink pen.old pen.new (printed (rounds_table names P values.now)) }
{
    pen.open(b"table");
    write_caption(pen);
    write_head(pen, names, values);
    write_body(pen, names, values);
    pen.close(b"table");
}

fn write_caption<const P: usize, K: Sink>(pen: &mut Pen<'_, P, K>)
    ensures { Prints K.Sink pen.old pen.new (printed caption) }
{
    pen.write(&[
        Piece::Start(b"caption"),
        Piece::Text(Cell::Bytes(
            b"A line for each candidate, a column for each round: its vote at the end of the round, and what it is behind it. The digits from the third behind the point on are smaller.",
        )),
        Piece::End(b"caption"),
    ]);
}

/// The head of the table.
fn write_head<const P: usize, K: Sink>(
    pen: &mut Pen<'_, P, K>,
    names: PartNames,
    values: &SheetValuesAt<P>,
)
    requires printable { IsPrintable P values.now }
    ensures { Prints K.Sink pen.old pen.new (printed (table_head names P values.now)) }
{
    pen.open(b"thead");
    write_head_row(pen, names, values);
    pen.close(b"thead");
}

fn write_head_row<const P: usize, K: Sink>(
    pen: &mut Pen<'_, P, K>,
    names: PartNames,
    values: &SheetValuesAt<P>,
)
    requires printable { IsPrintable P values.now }
    ensures { Prints K.Sink pen.old pen.new (printed (head_row names P values.now)) }
{
    pen.open(b"tr");
    write_first_head(pen);
    write_cells(pen, names, values, Entry::Round);
    pen.close(b"tr");
}

fn write_first_head<const P: usize, K: Sink>(pen: &mut Pen<'_, P, K>)
    ensures { Prints K.Sink pen.old pen.new (printed first_head) }
{
    pen.write(&[
        Piece::Begin(b"th"),
        Piece::With(b"scope", Cell::Bytes(b"col")),
        Piece::Within,
        Piece::Text(Cell::Bytes(b"Candidate")),
        Piece::End(b"th"),
    ]);
}

/// What a line says of each round.
fn write_cells<const P: usize, K: Sink>(
    pen: &mut Pen<'_, P, K>,
    names: PartNames,
    values: &SheetValuesAt<P>,
    entry: Entry,
)
    requires printable { IsPrintable P values.now }
    requires about { IsAbout (length values.now.names) entry }
    ensures { Prints K.Sink pen.old pen.new
        (print_each (cell_at names P values.now entry) (all_places (length values.now.rows))) }
{
    for i in 0..values.rows.len() {
        write_cell_at(pen, names, values, entry, i);
    }
}

/// What a line says of a round, if it ends at this place.
fn write_cell_at<const P: usize, K: Sink>(
    pen: &mut Pen<'_, P, K>,
    names: PartNames,
    values: &SheetValuesAt<P>,
    entry: Entry,
    i: usize,
)
    requires printable { IsPrintable P values.now }
    requires about { IsAbout (length values.now.names) entry }
    requires place { i < length values.now.rows }
    ensures { Prints K.Sink pen.old pen.new (printed (cell_at names P values.now entry i)) }
{
    if ends_round(values.rows.items(), i) {
        write_round_cell(pen, names, values, entry, i);
    }
}

/// What a line says of the round that ends at a place.
fn write_round_cell<const P: usize, K: Sink>(
    pen: &mut Pen<'_, P, K>,
    names: PartNames,
    values: &SheetValuesAt<P>,
    entry: Entry,
    i: usize,
)
    requires printable { IsPrintable P values.now }
    requires about { IsAbout (length values.now.names) entry }
    requires place { i < length values.now.rows }
    ensures { Prints K.Sink pen.old pen.new (printed (round_cell names P values.now entry i)) }
{
    let row = values.rows.get(i);
    match entry {
        Entry::Round => write_round_head(pen, names, values, i),
        Entry::Quota => write_amount(pen, row.quota),
        Entry::LeftOver => write_left(pen, values, row),
        Entry::Candidate(p) => write_vote(pen, row, states_behind(values, i), p),
    }
}

/// The number of the round that ends at a place.
fn write_round_head<const P: usize, K: Sink>(
    pen: &mut Pen<'_, P, K>,
    names: PartNames,
    values: &SheetValuesAt<P>,
    i: usize,
)
    requires place { i < length values.now.rows }
    ensures { Prints K.Sink pen.old pen.new
        (printed (round_head (link_to names i) (row_at values.now.rows i).round)) }
{
    let target = link_to(names, values, i);
    let row = values.rows.get(i);
    write_number_to(pen, target.bytes(), row.round);
}

/// The number of a round, that leads to this target.
fn write_number_to<const P: usize, K: Sink>(pen: &mut Pen<'_, P, K>, target: &[u8], round: u32)
    ensures { Prints K.Sink pen.old pen.new (printed (round_head target.now round)) }
{
    pen.write(&[
        Piece::Begin(b"th"),
        Piece::With(b"scope", Cell::Bytes(b"col")),
        Piece::Within,
        Piece::Begin(b"a"),
        Piece::With(b"href", Cell::Bytes(target)),
        Piece::Within,
        Piece::Text(Cell::Count(round as u64)),
        Piece::End(b"a"),
        Piece::End(b"th"),
    ]);
}

/// The lines below the head.
fn write_body<const P: usize, K: Sink>(
    pen: &mut Pen<'_, P, K>,
    names: PartNames,
    values: &SheetValuesAt<P>,
)
    requires printable { IsPrintable P values.now }
    ensures { Prints K.Sink pen.old pen.new (printed (table_body names P values.now)) }
{
    pen.open(b"tbody");
    write_quota_row(pen, names, values);
    write_left_row(pen, names, values);
    write_candidate_rows(pen, names, values);
    pen.close(b"tbody");
}

/// What a line is of.
fn write_line_head<const P: usize, K: Sink>(pen: &mut Pen<'_, P, K>, text: &[u8])
    ensures { Prints K.Sink pen.old pen.new (printed (line_head text.now)) }
{
    pen.write(&[
        Piece::Begin(b"th"),
        Piece::With(b"scope", Cell::Bytes(b"row")),
        Piece::Within,
        Piece::Text(Cell::Bytes(text)),
        Piece::End(b"th"),
    ]);
}

/// The quotas of all rounds.
fn write_quota_row<const P: usize, K: Sink>(
    pen: &mut Pen<'_, P, K>,
    names: PartNames,
    values: &SheetValuesAt<P>,
)
    requires printable { IsPrintable P values.now }
    ensures { Prints K.Sink pen.old pen.new (printed (quota_row names P values.now)) }
{
    pen.open(b"tr");
    write_line_head(pen, b"Quota");
    write_cells(pen, names, values, Entry::Quota);
    pen.close(b"tr");
}

/// What is left on no candidate at the end of each round.
fn write_left_row<const P: usize, K: Sink>(
    pen: &mut Pen<'_, P, K>,
    names: PartNames,
    values: &SheetValuesAt<P>,
)
    requires printable { IsPrintable P values.now }
    ensures { Prints K.Sink pen.old pen.new (printed (left_row names P values.now)) }
{
    pen.open(b"tr");
    write_line_head(pen, b"On no candidate");
    write_cells(pen, names, values, Entry::LeftOver);
    pen.close(b"tr");
}

/// What an iteration leaves on no candidate.
fn write_left<const P: usize, K: Sink>(
    pen: &mut Pen<'_, P, K>,
    values: &SheetValuesAt<P>,
    row: &Row<P>,
)
    requires { IsPrintable P values.now }
    ensures { Prints K.Sink pen.old pen.new (printed (amount_cell P (left_over P values.now.ballots row.now))) }
{
    write_amount(pen, left_over(values.ballots, row.total));
}

/// The lines of all candidates.
fn write_candidate_rows<const P: usize, K: Sink>(
    pen: &mut Pen<'_, P, K>,
    names: PartNames,
    values: &SheetValuesAt<P>,
)
    requires printable { IsPrintable P values.now }
    ensures { Prints K.Sink pen.old pen.new
        (print_each (candidate_row names P values.now) (all_places (length values.now.names))) }
{
    for p in 0..values.names.len() {
        write_candidate_row(pen, names, values, p);
    }
}

/// A candidate at the end of each round.
fn write_candidate_row<const P: usize, K: Sink>(
    pen: &mut Pen<'_, P, K>,
    names: PartNames,
    values: &SheetValuesAt<P>,
    p: usize,
)
    requires printable { IsPrintable P values.now }
    requires place { p < length values.now.names }
    ensures { Prints K.Sink pen.old pen.new (printed (candidate_row names P values.now p)) }
{
    pen.open(b"tr");
    write_candidate_at(pen, values, p);
    write_cells(pen, names, values, Entry::Candidate(p));
    pen.close(b"tr");
}

/// The head of the line of the candidate at a place.
fn write_candidate_at<const P: usize, K: Sink>(
    pen: &mut Pen<'_, P, K>,
    values: &SheetValuesAt<P>,
    p: usize,
)
    requires few { length values.now.names ≤ MOST_CANDIDATES }
    requires place { p < length values.now.names }
    ensures { Prints K.Sink pen.old pen.new (printed (candidate_head (name_at values.now p) (p + 1))) }
{
    write_candidate(pen, values.names.get(p).bytes(), p as u64 + 1);
}

/// A name with its number as the head of a line.
fn write_candidate<const P: usize, K: Sink>(pen: &mut Pen<'_, P, K>, name: &[u8], number: u64)
    ensures { Prints K.Sink pen.old pen.new (printed (candidate_head name.now number)) }
{
    pen.write(&[
        Piece::Begin(b"th"),
        Piece::With(b"scope", Cell::Bytes(b"row")),
        Piece::Within,
        Piece::Start(b"bdi"),
        Piece::Text(Cell::Bytes(name)),
        Piece::End(b"bdi"),
        Piece::Text(Cell::Bytes(b" (")),
        Piece::Text(Cell::Count(number)),
        Piece::Text(Cell::Bytes(b")")),
        Piece::End(b"th"),
    ]);
}
