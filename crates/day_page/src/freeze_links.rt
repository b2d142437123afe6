// Links to the freezes of a day.
ghost use Rattle.std.specs.Prelude.{◌≡◌, ◌∷◌};
ghost use Rattle.page_tree.specs.Print.{printed};
ghost use Rattle.sheet_page.specs.Prints.{Prints};
ghost use Rattle.sheet_page.specs.Trees.{print_each};
ghost use Rattle.day_page.specs.Freezes.{freeze_link, freeze_links, freeze_name, link_list, link_of};

use crate::freezes::{own_apart, whose};
use byte_edge::Sink;
use day_text::{DaySheet, DaySheets};
use line_text::Line;
use page_tree::Attribute;
use sheet_page::{Cell, Pen, Piece};

/// Writes a link to each freeze of so many calls.
pub(crate) fn write_links<const P: usize, K: Sink>(
    pen: &mut Pen<'_, P, K>,
    calls: u64,
    sheets: &DaySheets<P>,
)
    ensures { Prints K.Sink pen.old pen.new (printed (freeze_links calls sheets.now)) }
{
    pen.start(
        b"nav",
        &[Attribute {
            name: b"aria-label",
            value: b"Freezes",
        }],
    );
    write_list(pen, calls, sheets);
    pen.close(b"nav");
}

fn write_list<const P: usize, K: Sink>(pen: &mut Pen<'_, P, K>, calls: u64, sheets: &DaySheets<P>)
    ensures { Prints K.Sink pen.old pen.new (printed (link_list calls sheets.now)) }
{
    let (others, own) = own_apart(sheets);
    pen.open(b"ul");
    write_each(pen, calls, own);
    write_each(pen, calls, others);
    pen.close(b"ul");
}

fn write_each<const P: usize, K: Sink>(pen: &mut Pen<'_, P, K>, calls: u64, sheets: &[DaySheet<P>])
    ensures { Prints K.Sink pen.old pen.new (print_each (link_of calls) sheets.now) }
{
    for sheet in sheets {
        write_link(pen, calls, sheet);
    }
}

/// The link to the part of a freeze.
fn write_link<const P: usize, K: Sink>(pen: &mut Pen<'_, P, K>, calls: u64, sheet: &DaySheet<P>)
    ensures { Prints K.Sink pen.old pen.new (printed (link_of calls sheet.now)) }
{
    let target = link_to(sheet.freeze);
    let whose = whose(calls, sheet.freeze);
    write_link_text(pen, target.bytes(), sheet.freeze, whose);
}

/// Where the link to the part of a freeze leads.
#[tactic(auto, using(line_text::proofs::Lengths::lengths))]
fn link_to(freeze: u64) -> Line
    ensures { result ≡ 35 ∷ freeze_name freeze }
{
    let mut line = Line::new();
    line.push_bytes(b"#f");
    line.push_count(freeze);
    line
}

/// The link to a freeze, that leads to this target.
fn write_link_text<'x, const P: usize, K: Sink>(
    pen: &mut Pen<'_, P, K>,
    target: &'x [u8],
    freeze: u64,
    whose: &'x [u8],
)
    ensures { Prints K.Sink pen.old pen.new (printed (freeze_link target.now freeze whose.now)) }
{
    pen.write(&[
        Piece::Start(b"li"),
        Piece::Begin(b"a"),
        Piece::With(b"href", Cell::Bytes(target)),
        Piece::Within,
        Piece::Text(Cell::Bytes(b"Freeze ")),
        Piece::Text(Cell::Count(freeze)),
        Piece::Text(Cell::Bytes(whose)),
        Piece::Text(Cell::Bytes(b": what stands after call ")),
        Piece::Text(Cell::Count(freeze)),
        Piece::End(b"a"),
        Piece::End(b"li"),
    ]);
}
