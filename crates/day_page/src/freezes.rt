// The freezes of a day, and the sheet of each on a page.
ghost use Rattle.std.specs.Prelude.{◌≡◌, ◌-◌, All, codes, drop, length, take};
ghost use Rattle.page_tree.specs.Print.{opening, printed};
ghost use Rattle.sheet_reader.specs.Form.{IsPrintable};
ghost use Rattle.day_text.specs.Form.{IsPrintableSheet};
ghost use Rattle.sheet_page.specs.Links.{part_attributes};
ghost use Rattle.sheet_page.specs.Prints.{Prints};
ghost use Rattle.sheet_page.specs.Trees.{print_each};
ghost use Rattle.day_page.specs.Freezes.{article, freeze_heading, freeze_name, freeze_part, freeze_parts, whose};

use byte_edge::Sink;
use day_text::{DaySheet, DaySheets};
use line_text::Line;
use sheet_page::{Cell, PartNames, Pen, Piece, write_sheet_parts};
use sheet_reader::SheetValuesAt;

/// The sheets of a day but the last one, and the last one, which is that of the office's own freeze.
pub(crate) fn own_apart<const P: usize>(sheets: &DaySheets<P>) -> (&[DaySheet<P>], &[DaySheet<P>])
    ensures others { result.0.now ≡ take (length sheets.now - 1) sheets.now }
    ensures own { result.1.now ≡ drop (length sheets.now - 1) sheets.now }
{
    let items = sheets.items();
    items.split_at(items.len().saturating_sub(1))
}

/// Whose a freeze is, where it is the office's own: the last of so many calls.
pub(crate) fn whose(calls: u64, freeze: u64) -> &'static [u8]
    ensures { result.now ≡ whose calls freeze }
{
    if freeze == calls {
        b", the office's own"
    } else {
        b""
    }
}

/// Writes the part of each freeze of so many calls.
pub(crate) fn write_freezes<const P: usize, K: Sink>(
    pen: &mut Pen<'_, P, K>,
    calls: u64,
    sheets: &DaySheets<P>,
)
    requires printable { All (IsPrintableSheet P) sheets.now }
    ensures { Prints K.Sink pen.old pen.new (printed (freeze_parts P calls sheets.now)) }
{
    let (others, own) = own_apart(sheets);
    write_each(pen, calls, own);
    write_each(pen, calls, others);
}

fn write_each<const P: usize, K: Sink>(pen: &mut Pen<'_, P, K>, calls: u64, sheets: &[DaySheet<P>])
    requires printable { All (IsPrintableSheet P) sheets.now }
    ensures { Prints K.Sink pen.old pen.new (print_each (freeze_part P calls) sheets.now) }
{
    for sheet in sheets {
        write_part(pen, calls, sheet);
    }
}

/// The part of a freeze.
fn write_part<const P: usize, K: Sink>(pen: &mut Pen<'_, P, K>, calls: u64, sheet: &DaySheet<P>)
    requires printable { IsPrintableSheet P sheet.now }
    ensures { Prints K.Sink pen.old pen.new (printed (freeze_part P calls sheet.now)) }
{
    let whose = whose(calls, sheet.freeze);
    write_article(pen, sheet.freeze, whose, &sheet.values);
}

/// A freeze, whose it is, and all that a page shows of its sheet.
fn write_article<const P: usize, K: Sink>(
    pen: &mut Pen<'_, P, K>,
    freeze: u64,
    whose: &[u8],
    values: &SheetValuesAt<P>,
)
    requires printable { IsPrintable P values.now }
    ensures { Prints K.Sink pen.old pen.new (printed (article P freeze whose.now values.now)) }
{
    write_start(pen, freeze);
    write_heading(pen, freeze, whose);
    write_sheet_parts(pen, PartNames::OfFreeze(freeze), values);
    pen.close(b"article");
}

/// The start of the part of a freeze, with the name of the part.
fn write_start<const P: usize, K: Sink>(pen: &mut Pen<'_, P, K>, freeze: u64)
    ensures { Prints K.Sink pen.old pen.new (opening (codes "article") (part_attributes (freeze_name freeze))) }
{
    let name = name_of(freeze);
    write_start_of(pen, name.bytes());
}

/// The name of the part of a freeze.
#[tactic(auto, using(line_text::proofs::Lengths::lengths))]
fn name_of(freeze: u64) -> Line
    ensures { result ≡ freeze_name freeze }
{
    let mut line = Line::new();
    line.push_bytes(b"f");
    line.push_count(freeze);
    line
}

/// The start of a part of this name.
fn write_start_of<const P: usize, K: Sink>(pen: &mut Pen<'_, P, K>, name: &[u8])
    ensures { Prints K.Sink pen.old pen.new (opening (codes "article") (part_attributes name.now)) }
{
    pen.write(&[
        Piece::Begin(b"article"),
        Piece::With(b"id", Cell::Bytes(name)),
        Piece::Within,
    ]);
}

/// Which freeze it is, whose, and after which call.
fn write_heading<const P: usize, K: Sink>(pen: &mut Pen<'_, P, K>, freeze: u64, whose: &[u8])
    ensures { Prints K.Sink pen.old pen.new (printed (freeze_heading freeze whose.now)) }
{
    pen.write(&[
        Piece::Start(b"h1"),
        Piece::Text(Cell::Bytes(b"Freeze ")),
        Piece::Text(Cell::Count(freeze)),
        Piece::Text(Cell::Bytes(whose)),
        Piece::Text(Cell::Bytes(b": what stands after call ")),
        Piece::Text(Cell::Count(freeze)),
        Piece::End(b"h1"),
    ]);
}
