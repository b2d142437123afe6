// Links to the parts of the rounds.
ghost use Rattle.std.specs.Prelude.{◌≡◌, ◌<◌, ◌≤◌, length};
ghost use Rattle.page_tree.specs.Print.{printed};
ghost use Rattle.sheet_reader.specs.Form.{IsPrintable};
ghost use Rattle.sheet_minutes.specs.Rounds.{row_at};
ghost use Rattle.sheet_page.specs.Links.{link_at, link_list, link_to, links, part_name, round_link};
ghost use Rattle.sheet_page.specs.Prints.{Prints};
ghost use Rattle.sheet_page.specs.Trees.{print_each};
ghost use Rattle.sheet_page.specs.Values.{all_places};

use crate::PartNames;
use crate::cell::Cell;
use crate::pen::Pen;
use crate::piece::Piece;
use byte_edge::Sink;
use line_text::Line;
use page_tree::Attribute;
use sheet_minutes::ends_round;
use sheet_reader::SheetValuesAt;

/// Writes a link to the part of each round.
pub(crate) fn write_links<const P: usize, K: Sink>(
    pen: &mut Pen<'_, P, K>,
    names: PartNames,
    values: &SheetValuesAt<P>,
)
    requires printable { IsPrintable P values.now }
    ensures { Prints K.Sink pen.old pen.new (printed (links names values.now)) }
{
    pen.start(
        b"nav",
        &[Attribute {
            name: b"aria-label",
            value: b"Rounds",
        }],
    );
    write_link_list(pen, names, values);
    pen.close(b"nav");
}

fn write_link_list<const P: usize, K: Sink>(
    pen: &mut Pen<'_, P, K>,
    names: PartNames,
    values: &SheetValuesAt<P>,
)
    requires printable { IsPrintable P values.now }
    ensures { Prints K.Sink pen.old pen.new (printed (link_list names values.now)) }
{
    pen.open(b"ul");
    write_each_link(pen, names, values);
    pen.close(b"ul");
}

fn write_each_link<const P: usize, K: Sink>(
    pen: &mut Pen<'_, P, K>,
    names: PartNames,
    values: &SheetValuesAt<P>,
)
    requires printable { IsPrintable P values.now }
    ensures { Prints K.Sink pen.old pen.new
        (print_each (link_at names values.now) (all_places (length values.now.rows))) }
{
    for i in 0..values.rows.len() {
        write_link_at(pen, names, values, i);
    }
}

/// The link to a round, if it ends at this place.
fn write_link_at<const P: usize, K: Sink>(
    pen: &mut Pen<'_, P, K>,
    names: PartNames,
    values: &SheetValuesAt<P>,
    i: usize,
)
    requires place { i < length values.now.rows }
    ensures { Prints K.Sink pen.old pen.new (printed (link_at names values.now i)) }
{
    if ends_round(values.rows.items(), i) {
        write_link(pen, names, values, i);
    }
}

/// The link to the part of the round that ends at a place.
fn write_link<const P: usize, K: Sink>(
    pen: &mut Pen<'_, P, K>,
    names: PartNames,
    values: &SheetValuesAt<P>,
    i: usize,
)
    requires place { i < length values.now.rows }
    ensures { Prints K.Sink pen.old pen.new
        (printed (round_link (link_to names i) (row_at values.now.rows i).round)) }
{
    let target = link_to(names, values, i);
    let row = values.rows.get(i);
    write_link_text(pen, target.bytes(), row.round);
}

/// The number of a round, that leads to this target.
fn write_link_text<const P: usize, K: Sink>(pen: &mut Pen<'_, P, K>, target: &[u8], round: u32)
    ensures { Prints K.Sink pen.old pen.new (printed (round_link target.now round)) }
{
    pen.write(&[
        Piece::Start(b"li"),
        Piece::Begin(b"a"),
        Piece::With(b"href", Cell::Bytes(target)),
        Piece::Within,
        Piece::Text(Cell::Bytes(b"Round ")),
        Piece::Text(Cell::Count(round as u64)),
        Piece::End(b"a"),
        Piece::End(b"li"),
    ]);
}

/// Where the link to the part of the round that ends at a place leads.
#[tactic(auto, using(line_text::proofs::Lengths::lengths))]
pub(crate) fn link_to<const P: usize>(
    names: PartNames,
    values: &SheetValuesAt<P>,
    last: usize,
) -> Line
    requires { last < length values.now.rows }
    ensures { result ≡ link_to names last }
{
    let name = part_name(names, values, last);
    let mut line = Line::new();
    line.push_bytes(b"#");
    line.push_bytes(name.bytes());
    line
}

/// The name of the part of the round that ends at a place.
#[tactic(auto, using(crate::proofs::Rooms::rooms))]
pub(crate) fn part_name<const P: usize>(
    names: PartNames,
    values: &SheetValuesAt<P>,
    last: usize,
) -> Line
    requires { last < length values.now.rows }
    ensures name { result ≡ part_name names last }
    ensures short { length result ≤ 100 }
{
    let _iterations = values.rows.len();
    let mut line = names.front();
    line.push_count(last as u64 + 1);
    line
}
