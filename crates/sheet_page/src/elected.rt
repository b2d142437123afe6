// Who is elected, in the order and the round of election.
ghost use Rattle.std.specs.Prelude.{◌≡◌, ◌<◌, ◌≤◌, ◌&&◌, not, length};
ghost use Rattle.plain_ballots.specs.declared.limits.TheConstants.{MOST_CANDIDATES};
ghost use Rattle.lot_order.specs.Flags.{mark_at};
ghost use Rattle.meek_rule.specs.Row.{HasRoomFor};
ghost use Rattle.page_tree.specs.Print.{printed};
ghost use Rattle.sheet_reader.specs.Form.{IsPrintable};
ghost use Rattle.meek_rule.specs.Situation.{is_elected};
ghost use Rattle.sheet_page.specs.Html.{at_end, elected_in, elected_item, elected_list, elected_part, elected_title, in_round, is_seated, seated_item, was_elected};
ghost use Rattle.sheet_page.specs.Prints.{Prints};
ghost use Rattle.sheet_page.specs.Trees.{print_each};
ghost use Rattle.sheet_page.specs.Values.{all_places};

use crate::cell::Cell;
use crate::pen::Pen;
use crate::piece::Piece;
use byte_edge::Sink;
use candidate_roll::State;
use meek_rule::Row;
use sheet_reader::SheetValuesAt;

/// The part of a page that lists who is elected.
pub(crate) fn write_elected<const P: usize, K: Sink>(
    pen: &mut Pen<'_, P, K>,
    values: &SheetValuesAt<P>,
)
    requires printable { IsPrintable P values.now }
    ensures { Prints K.Sink pen.old pen.new (printed (elected_part values.now)) }
{
    pen.open(b"section");
    write_title(pen);
    write_list(pen, values);
    pen.close(b"section");
}

fn write_title<const P: usize, K: Sink>(pen: &mut Pen<'_, P, K>)
    ensures { Prints K.Sink pen.old pen.new (printed elected_title) }
{
    pen.write(&[
        Piece::Start(b"h2"),
        Piece::Text(Cell::Bytes(b"Elected")),
        Piece::End(b"h2"),
    ]);
}

/// All who are elected, each once.
fn write_list<const P: usize, K: Sink>(pen: &mut Pen<'_, P, K>, values: &SheetValuesAt<P>)
    requires printable { IsPrintable P values.now }
    ensures { Prints K.Sink pen.old pen.new (printed (elected_list values.now)) }
{
    pen.open(b"ol");
    write_elected_rows(pen, values);
    write_seated(pen, values);
    pen.close(b"ol");
}

/// Who was elected in the iterations, one after another.
fn write_elected_rows<const P: usize, K: Sink>(pen: &mut Pen<'_, P, K>, values: &SheetValuesAt<P>)
    requires printable { IsPrintable P values.now }
    ensures { Prints K.Sink pen.old pen.new (print_each (elected_in values.now) values.now.rows) }
{
    for row in values.rows.items() {
        write_elected_in(pen, values, row);
    }
}

/// Whom an iteration elected, by rising numbers.
fn write_elected_in<const P: usize, K: Sink>(
    pen: &mut Pen<'_, P, K>,
    values: &SheetValuesAt<P>,
    row: &Row<P>,
)
    requires room { HasRoomFor (length values.now.names) row.now }
    requires few { length values.now.names ≤ MOST_CANDIDATES }
    ensures { Prints K.Sink pen.old pen.new
        (print_each (elected_item values.now row.now) (all_places (length values.now.names))) }
{
    for p in 0..values.names.len() {
        write_elected_item(pen, values, row, p);
    }
}

/// A candidate, if the iteration elected it.
fn write_elected_item<const P: usize, K: Sink>(
    pen: &mut Pen<'_, P, K>,
    values: &SheetValuesAt<P>,
    row: &Row<P>,
    p: usize,
)
    requires room { HasRoomFor (length values.now.names) row.now }
    requires few { length values.now.names ≤ MOST_CANDIDATES }
    requires place { p < length values.now.names }
    ensures { Prints K.Sink pen.old pen.new (printed (elected_item values.now row.now p)) }
{
    if *row.elected.get(p) {
        write_in_round(pen, values.names.get(p).bytes(), p as u64 + 1, row.round);
    }
}

/// Somebody whom an iteration elected.
fn write_in_round<const P: usize, K: Sink>(
    pen: &mut Pen<'_, P, K>,
    name: &[u8],
    number: u64,
    round: u32,
)
    ensures { Prints K.Sink pen.old pen.new (printed (in_round name.now number round)) }
{
    pen.write(&[
        Piece::Start(b"li"),
        Piece::Start(b"bdi"),
        Piece::Text(Cell::Bytes(name)),
        Piece::End(b"bdi"),
        Piece::Text(Cell::Bytes(b" (")),
        Piece::Text(Cell::Count(number)),
        Piece::Text(Cell::Bytes(b")")),
        Piece::Text(Cell::Bytes(b": elected in round ")),
        Piece::Text(Cell::Count(round as u64)),
        Piece::End(b"li"),
    ]);
}

/// Who is elected in the end, and was in no iteration.
fn write_seated<const P: usize, K: Sink>(pen: &mut Pen<'_, P, K>, values: &SheetValuesAt<P>)
    requires printable { IsPrintable P values.now }
    ensures { Prints K.Sink pen.old pen.new
        (print_each (seated_item values.now) (all_places (length values.now.names))) }
{
    for p in 0..values.names.len() {
        write_seated_item(pen, values, p);
    }
}

/// A candidate, if it is elected in the end and was in no iteration.
fn write_seated_item<const P: usize, K: Sink>(
    pen: &mut Pen<'_, P, K>,
    values: &SheetValuesAt<P>,
    p: usize,
)
    requires printable { IsPrintable P values.now }
    requires place { p < length values.now.names }
    ensures { Prints K.Sink pen.old pen.new (printed (seated_item values.now p)) }
{
    if is_seated(values, p) {
        write_at_end(pen, values.names.get(p).bytes(), p as u64 + 1);
    }
}

/// Somebody who is elected to a seat that was left.
fn write_at_end<const P: usize, K: Sink>(pen: &mut Pen<'_, P, K>, name: &[u8], number: u64)
    ensures { Prints K.Sink pen.old pen.new (printed (at_end name.now number)) }
{
    pen.write(&[
        Piece::Start(b"li"),
        Piece::Start(b"bdi"),
        Piece::Text(Cell::Bytes(name)),
        Piece::End(b"bdi"),
        Piece::Text(Cell::Bytes(b" (")),
        Piece::Text(Cell::Count(number)),
        Piece::Text(Cell::Bytes(b")")),
        Piece::Text(Cell::Bytes(b": elected at the end, to a seat that was left")),
        Piece::End(b"li"),
    ]);
}

/// Whether the candidate at a place is elected in the end, and was in no iteration.
fn is_seated<const P: usize>(values: &SheetValuesAt<P>, p: usize) -> bool
    requires printable { IsPrintable P values.now }
    requires place { p < length values.now.names }
    ensures { result ≡ is_seated values.now p }
{
    is_elected(*values.last.get(p)) && !was_elected(values.rows.items(), p)
}

/// Whether some iteration elected the candidate at a place.
fn was_elected<const P: usize>(rows: &[Row<P>], p: usize) -> bool
    ensures { result ≡ was_elected rows.now p }
{
    for row in rows {
        if is_marked(row, p) {
            return true;
        }
    }
    false
}

/// Whether an iteration elected the candidate at a place; nobody stands past the end.
#[tactic(auto, using(crate::proofs::Marks::unmarked))]
fn is_marked<const P: usize>(row: &Row<P>, p: usize) -> bool
    ensures { result ≡ mark_at row.now.elected p }
{
    if p < row.elected.len() {
        *row.elected.get(p)
    } else {
        false
    }
}

fn is_elected(state: State) -> bool
    ensures { result ≡ is_elected state }
{
    match state {
        State::Hopeful => false,
        State::Elected => true,
        State::Defeated => false,
        State::Withdrawn => false,
    }
}
