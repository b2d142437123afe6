// What a page shows of each round.
ghost use Rattle.std.specs.Prelude.{◌≡◌, ◌<◌, codes, length};
ghost use Rattle.page_tree.specs.Print.{opening, printed};
ghost use Rattle.sheet_reader.specs.Form.{IsPrintable};
ghost use Rattle.sheet_page.specs.Html.{part_at, round_part, round_title};
ghost use Rattle.sheet_page.specs.Links.{part_attributes, part_name};
ghost use Rattle.sheet_page.specs.Prints.{Prints};
ghost use Rattle.sheet_page.specs.Trees.{print_each};
ghost use Rattle.sheet_page.specs.Values.{all_places};

use crate::PartNames;
use crate::cell::Cell;
use crate::iterations::write_folded;
use crate::links::part_name;
use crate::pen::Pen;
use crate::picture::write_round_picture;
use crate::piece::Piece;
use crate::told::write_round_sentences;
use byte_edge::Sink;
use sheet_minutes::{ends_round, states_behind};
use sheet_reader::SheetValuesAt;

/// Writes the part of each round; `full` units have the whole width of a picture.
pub(crate) fn write_round_parts<const P: usize, K: Sink>(
    pen: &mut Pen<'_, P, K>,
    names: PartNames,
    values: &SheetValuesAt<P>,
    full: u64,
)
    requires printable { IsPrintable P values.now }
    ensures { Prints K.Sink pen.old pen.new
        (print_each (part_at names P values.now full) (all_places (length values.now.rows))) }
{
    for i in 0..values.rows.len() {
        write_part_at(pen, names, values, full, i);
    }
}

/// The part of a round, if it ends at this place.
fn write_part_at<const P: usize, K: Sink>(
    pen: &mut Pen<'_, P, K>,
    names: PartNames,
    values: &SheetValuesAt<P>,
    full: u64,
    i: usize,
)
    requires printable { IsPrintable P values.now }
    requires place { i < length values.now.rows }
    ensures { Prints K.Sink pen.old pen.new (printed (part_at names P values.now full i)) }
{
    if ends_round(values.rows.items(), i) {
        write_round_part(pen, names, values, full, i);
    }
}

/// The part of the round that ends at a place.
fn write_round_part<const P: usize, K: Sink>(
    pen: &mut Pen<'_, P, K>,
    names: PartNames,
    values: &SheetValuesAt<P>,
    full: u64,
    last: usize,
)
    requires printable { IsPrintable P values.now }
    requires place { last < length values.now.rows }
    ensures { Prints K.Sink pen.old pen.new (printed (round_part names P values.now full last)) }
{
    let row = values.rows.get(last);
    write_start(pen, names, values, last);
    write_title(pen, row.round);
    write_round_sentences(pen, values, last);
    write_round_picture(pen, values, full, row, states_behind(values, last));
    write_folded(pen, values, last);
    pen.close(b"section");
}

/// The start of the part of the round that ends at a place, with the name of the part.
fn write_start<const P: usize, K: Sink>(
    pen: &mut Pen<'_, P, K>,
    names: PartNames,
    values: &SheetValuesAt<P>,
    last: usize,
)
    requires place { last < length values.now.rows }
    ensures { Prints K.Sink pen.old pen.new (opening (codes "section") (part_attributes (part_name names last))) }
{
    let name = part_name(names, values, last);
    write_start_of(pen, name.bytes());
}

/// The start of a part of this name.
fn write_start_of<const P: usize, K: Sink>(pen: &mut Pen<'_, P, K>, name: &[u8])
    ensures { Prints K.Sink pen.old pen.new (opening (codes "section") (part_attributes name.now)) }
{
    pen.write(&[
        Piece::Begin(b"section"),
        Piece::With(b"id", Cell::Bytes(name)),
        Piece::Within,
    ]);
}

fn write_title<const P: usize, K: Sink>(pen: &mut Pen<'_, P, K>, round: u32)
    ensures { Prints K.Sink pen.old pen.new (printed (round_title round)) }
{
    pen.write(&[
        Piece::Start(b"h2"),
        Piece::Text(Cell::Bytes(b"Round ")),
        Piece::Text(Cell::Count(round as u64)),
        Piece::End(b"h2"),
    ]);
}
