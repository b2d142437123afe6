// What a count promises, on a page.
ghost use Rattle.std.specs.Prelude.{◌≡◌, ◌+◌, ◌&&◌, ◌<◌, ◌≤◌, not, nat_eq, length};
ghost use Rattle.fixed_place.specs.Rounding.{scale};
ghost use Rattle.fixed_place.specs.Text.{text_of};
ghost use Rattle.meek_rule.specs.Row.{HasRoomFor};
ghost use Rattle.page_tree.specs.Print.{printed};
ghost use Rattle.sheet_reader.specs.Form.{IsPrintable};
ghost use Rattle.count_promise.specs.Left.{first_defeat};
ghost use Rattle.count_promise.specs.Lots.{is_in};
ghost use Rattle.sheet_page.specs.Promised.{bound_item, bound_or_none, chosen, lot_at, lot_item, lot_items, lot_verb, lots_in, none_item, none_of, other, other_at, promise_head, promise_list, promise_part, told_promise};
ghost use Rattle.sheet_page.specs.Prints.{Prints};
ghost use Rattle.sheet_page.specs.Trees.{print_each};
ghost use Rattle.sheet_page.specs.Values.{all_places, name_at};

use crate::cell::{Cell, units_text};
use crate::pen::Pen;
use crate::piece::Piece;
use byte_edge::Sink;
use count_promise::{
    Group, chosen_among, decides_any, defeated, first_defeat, is_in, promised_quota, slack,
};
use fixed_place::{Amount, scale_of};
use meek_rule::Row;
use sheet_reader::SheetValuesAt;

/// Writes the part of a page that says what the count promises, which is so at nine places alone.
pub(crate) fn write_promise<const P: usize, K: Sink>(
    pen: &mut Pen<'_, P, K>,
    values: &SheetValuesAt<P>,
)
    requires printable { IsPrintable P values.now }
    ensures { Prints K.Sink pen.old pen.new (printed (promise_part P values.now)) }
{
    if P == 9 {
        write_told(pen, values);
    }
}

fn write_told<const P: usize, K: Sink>(pen: &mut Pen<'_, P, K>, values: &SheetValuesAt<P>)
    requires places { (6 ≤ P) × (P ≤ 9) }
    requires printable { IsPrintable P values.now }
    ensures { Prints K.Sink pen.old pen.new (printed (told_promise P values.now)) }
{
    pen.open(b"section");
    write_head(pen);
    write_list(pen, values);
    pen.close(b"section");
}

/// The title, and where the sentences are explained.
fn write_head<const P: usize, K: Sink>(pen: &mut Pen<'_, P, K>)
    ensures { Prints K.Sink pen.old pen.new (printed promise_head) }
{
    pen.write(&[
        Piece::Start(b"h2"),
        Piece::Text(Cell::Bytes(b"What this count promises")),
        Piece::End(b"h2"),
        Piece::Start(b"p"),
        Piece::Text(Cell::Bytes(
            b"Anybody can work this out from the sheet: docs/FORMATS.md says how, under What one count promises.",
        )),
        Piece::End(b"p"),
    ]);
}

fn write_list<const P: usize, K: Sink>(pen: &mut Pen<'_, P, K>, values: &SheetValuesAt<P>)
    requires places { (6 ≤ P) × (P ≤ 9) }
    requires printable { IsPrintable P values.now }
    ensures { Prints K.Sink pen.old pen.new (printed (promise_list P values.now)) }
{
    pen.open(b"ul");
    write_lots(pen, values);
    write_bound(pen, values);
    pen.close(b"ul");
}

/// What lots decided, or that they decided nothing.
fn write_lots<const P: usize, K: Sink>(pen: &mut Pen<'_, P, K>, values: &SheetValuesAt<P>)
    requires printable { IsPrintable P values.now }
    ensures { Prints K.Sink pen.old pen.new (printed (lot_items values.now)) }
{
    if decides_any(values.rows.items()) {
        write_each_lot(pen, values);
        return;
    }
    pen.write(&[
        Piece::Start(b"li"),
        Piece::Text(Cell::Bytes(b"No lot decided anything.")),
        Piece::End(b"li"),
    ]);
}

fn write_each_lot<const P: usize, K: Sink>(pen: &mut Pen<'_, P, K>, values: &SheetValuesAt<P>)
    requires printable { IsPrintable P values.now }
    ensures { Prints K.Sink pen.old pen.new (print_each (lots_in values.now) values.now.rows) }
{
    for row in values.rows.items() {
        write_lots_in(pen, values, row);
    }
}

/// Whom lots chose in an iteration.
fn write_lots_in<const P: usize, K: Sink>(
    pen: &mut Pen<'_, P, K>,
    values: &SheetValuesAt<P>,
    row: &Row<P>,
)
    requires room { HasRoomFor (length row.now.states) row.now }
    ensures { Prints K.Sink pen.old pen.new
        (print_each (lot_at values.now row.now) (all_places (length row.now.states))) }
{
    for p in 0..row.states.len() {
        write_lot_at(pen, values, row, p);
    }
}

/// The candidate at a place, if a lot chose it.
fn write_lot_at<const P: usize, K: Sink>(
    pen: &mut Pen<'_, P, K>,
    values: &SheetValuesAt<P>,
    row: &Row<P>,
    p: usize,
)
    requires room { HasRoomFor (length row.now.states) row.now }
    requires place { p < length row.now.states }
    ensures { Prints K.Sink pen.old pen.new (printed (lot_at values.now row.now p)) }
{
    if let Some(group) = chosen_among(row, p) {
        write_lot(pen, values, row, p, group);
    }
}

/// The candidate at a place, whom a lot chose among these.
fn write_lot<const P: usize, K: Sink>(
    pen: &mut Pen<'_, P, K>,
    values: &SheetValuesAt<P>,
    row: &Row<P>,
    p: usize,
    group: Group,
)
    requires room { HasRoomFor (length row.now.states) row.now }
    requires place { p < length row.now.states }
    ensures { Prints K.Sink pen.old pen.new (printed (lot_item values.now row.now p group)) }
{
    let _candidates = row.states.len();
    let name = name_at(values, p);
    pen.open(b"li");
    write_chosen(
        pen,
        name,
        p as u64 + 1,
        row.round,
        row.iteration,
        lot_verb(group),
    );
    write_others(pen, values, row, group, p);
    pen.piece(&Piece::Text(Cell::Bytes(b".")));
    pen.close(b"li");
}

/// Which iteration it was, and whom a lot chose.
fn write_chosen<'x, const P: usize, K: Sink>(
    pen: &mut Pen<'_, P, K>,
    name: &'x [u8],
    number: u64,
    round: u32,
    iteration: u64,
    verb: &'x [u8],
)
    ensures { Prints K.Sink pen.old pen.new (printed (chosen name.now number round iteration verb.now)) }
{
    pen.write(&[
        Piece::Text(Cell::Bytes(b"Round ")),
        Piece::Text(Cell::Count(round as u64)),
        Piece::Text(Cell::Bytes(b", iteration ")),
        Piece::Text(Cell::Count(iteration)),
        Piece::Text(Cell::Bytes(b": a lot decided that ")),
        Piece::Start(b"bdi"),
        Piece::Text(Cell::Bytes(name)),
        Piece::End(b"bdi"),
        Piece::Text(Cell::Bytes(b" (")),
        Piece::Text(Cell::Count(number)),
        Piece::Text(Cell::Bytes(b")")),
        Piece::Text(Cell::Bytes(verb)),
    ]);
}

/// All others of these.
fn write_others<const P: usize, K: Sink>(
    pen: &mut Pen<'_, P, K>,
    values: &SheetValuesAt<P>,
    row: &Row<P>,
    group: Group,
    p: usize,
)
    requires room { HasRoomFor (length row.now.states) row.now }
    ensures { Prints K.Sink pen.old pen.new
        (print_each (other_at values.now row.now group p) (all_places (length row.now.states))) }
{
    for q in 0..row.states.len() {
        write_other_at(pen, values, row, group, p, q);
    }
}

/// The candidate at the place `q`, if it is one of these and not the one at `p`.
fn write_other_at<const P: usize, K: Sink>(
    pen: &mut Pen<'_, P, K>,
    values: &SheetValuesAt<P>,
    row: &Row<P>,
    group: Group,
    p: usize,
    q: usize,
)
    requires room { HasRoomFor (length row.now.states) row.now }
    requires place { q < length row.now.states }
    ensures { Prints K.Sink pen.old pen.new (printed (other_at values.now row.now group p q)) }
{
    let _candidates = row.states.len();
    if is_other(row, group, p, q) {
        write_other(pen, name_at(values, q), q as u64 + 1);
    }
}

/// Whether the candidate at the place `q` is one of these and not the one at `p`.
fn is_other<const P: usize>(row: &Row<P>, group: Group, p: usize, q: usize) -> bool
    requires room { HasRoomFor (length row.now.states) row.now }
    requires place { q < length row.now.states }
    ensures { result ≡ (is_in row.now group q && not (nat_eq q p)) }
{
    is_in(row, group, q) && q != p
}

fn write_other<const P: usize, K: Sink>(pen: &mut Pen<'_, P, K>, name: &[u8], number: u64)
    ensures { Prints K.Sink pen.old pen.new (printed (other name.now number)) }
{
    pen.write(&[
        Piece::Text(Cell::Bytes(b", and not ")),
        Piece::Start(b"bdi"),
        Piece::Text(Cell::Bytes(name)),
        Piece::End(b"bdi"),
        Piece::Text(Cell::Bytes(b" (")),
        Piece::Text(Cell::Count(number)),
        Piece::Text(Cell::Bytes(b")")),
    ]);
}

/// What a lot decided of whom it chose among these.
fn lot_verb(group: Group) -> &'static [u8]
    ensures { result.now ≡ lot_verb group }
{
    match group {
        Group::Tied => b" is defeated",
        Group::Seated => b" is elected",
        Group::Left => b" is elected",
    }
}

/// The name of the candidate at a place; nobody stands past the end.
fn name_at<const P: usize>(values: &SheetValuesAt<P>, p: usize) -> &[u8]
    ensures { result.now ≡ name_at values.now p }
{
    if p < values.names.len() {
        values.names.get(p).bytes()
    } else {
        b""
    }
}

/// The bound, or the first defeat that leaves none.
fn write_bound<const P: usize, K: Sink>(pen: &mut Pen<'_, P, K>, values: &SheetValuesAt<P>)
    requires places { (6 ≤ P) × (P ≤ 9) }
    requires printable { IsPrintable P values.now }
    ensures { Prints K.Sink pen.old pen.new
        (printed (bound_or_none P values.now (first_defeat (scale P) values.now.rows))) }
{
    let quota = units_text::<P>(promised_quota(values));
    match first_defeat(values.rows.items(), scale_of::<P>()) {
        Some(row) => write_none_of(pen, values, row, quota.bytes()),
        None => {
            let over = units_text::<P>(slack(values));
            write_within(pen, quota.bytes(), over.bytes());
        }
    }
}

/// Which seats groups of voters have.
fn write_within<'x, const P: usize, K: Sink>(
    pen: &mut Pen<'_, P, K>,
    quota: &'x [u8],
    over: &'x [u8],
)
    ensures { Prints K.Sink pen.old pen.new (printed (bound_item quota.now over.now)) }
{
    pen.write(&[
        Piece::Start(b"li"),
        Piece::Text(Cell::Bytes(
            b"Any voters who rank the same candidates, in any order, above all others who run, and are at least k quotas of ",
        )),
        Piece::Text(Cell::Bytes(quota)),
        Piece::Text(Cell::Bytes(b" votes and ")),
        Piece::Text(Cell::Bytes(over)),
        Piece::Text(Cell::Bytes(
            b" votes more, have k of these candidates elected, or all of these who run where they are fewer than k.",
        )),
        Piece::End(b"li"),
    ]);
}

/// An iteration whose defeat leaves no bound.
fn write_none_of<const P: usize, K: Sink>(
    pen: &mut Pen<'_, P, K>,
    values: &SheetValuesAt<P>,
    row: &Row<P>,
    quota: &[u8],
)
    ensures { Prints K.Sink pen.old pen.new (printed (none_of P values.now row.now quota.now)) }
{
    let number = defeated(row.step);
    let name = name_at(values, (number as usize).saturating_sub(1));
    write_none(
        pen,
        name,
        number as u64,
        row.round,
        row.iteration,
        row.surplus,
        quota,
    );
}

/// Whose defeat leaves no bound.
fn write_none<'x, const P: usize, K: Sink>(
    pen: &mut Pen<'_, P, K>,
    name: &'x [u8],
    number: u64,
    round: u32,
    iteration: u64,
    surplus: Amount<P>,
    quota: &'x [u8],
)
    ensures { Prints K.Sink pen.old pen.new
        (printed (none_item name.now number round iteration (text_of P surplus.entry) quota.now)) }
{
    pen.write(&[
        Piece::Start(b"li"),
        Piece::Text(Cell::Bytes(b"Not promised: in round ")),
        Piece::Text(Cell::Count(round as u64)),
        Piece::Text(Cell::Bytes(b", iteration ")),
        Piece::Text(Cell::Count(iteration)),
        Piece::Text(Cell::Bytes(b", ")),
        Piece::Start(b"bdi"),
        Piece::Text(Cell::Bytes(name)),
        Piece::End(b"bdi"),
        Piece::Text(Cell::Bytes(b" (")),
        Piece::Text(Cell::Count(number)),
        Piece::Text(Cell::Bytes(b")")),
        Piece::Text(Cell::Bytes(b" was defeated while ")),
        Piece::Text(Cell::Amount(surplus)),
        Piece::Text(Cell::Bytes(b" votes of surplus were not passed on. ")),
        Piece::Text(Cell::Bytes(
            b"So voters who rank the same candidates, in any order, above all others who run, may have fewer of these elected than they have quotas of ",
        )),
        Piece::Text(Cell::Bytes(quota)),
        Piece::Text(Cell::Bytes(b" votes.")),
        Piece::End(b"li"),
    ]);
}
