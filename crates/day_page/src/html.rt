// A day as a page.
ghost use Rattle.std.specs.Prelude.{◌≡◌, All};
ghost use Rattle.page_tree.specs.Print.{printed};
ghost use Rattle.piece_text.specs.Writing.{Writes};
ghost use Rattle.day_text.specs.End.{day_end};
ghost use Rattle.day_text.specs.Form.{IsPrintableSheet};
ghost use Rattle.sheet_page.specs.Prints.{Prints};
ghost use Rattle.day_page.specs.DayHtml.{content_with, day_body, day_content, day_head, day_heading, day_html, day_page, told_of_page};

use crate::call_table::write_calls;
use crate::end_part::write_end;
use crate::freeze_links::write_links;
use crate::freezes::write_freezes;
use batch_core::Entries;
use byte_edge::{Failed, Sink};
use day_text::{DayEnd, DaySheets, DayText};
use page_tree::Attribute;
use sheet_page::{Cell, Pen, Piece, write_style};

/// Writes a day as a page, with what is in its end.
pub(crate) fn write_html<const P: usize, K: Sink>(
    day: &DayText<P>,
    end: &DayEnd,
    sink: &mut K,
) -> Result<(), Failed>
    requires printable { All (IsPrintableSheet P) day.now.sheets }
    requires end { end.now ≡ day_end day.now.history }
    ensures { Writes K.written K.faults sink.old sink.new (day_html P day.now) result }
{
    let mut pen = Pen::new(sink);
    pen.piece(&Piece::Raw(b"<!DOCTYPE html>"));
    write_page(&mut pen, day, end);
    pen.piece(&Piece::Raw(b"\n"));
    pen.end()
}

/// All after the line that says that it is HTML.
fn write_page<const P: usize, K: Sink>(pen: &mut Pen<'_, P, K>, day: &DayText<P>, end: &DayEnd)
    requires printable { All (IsPrintableSheet P) day.now.sheets }
    requires end { end.now ≡ day_end day.now.history }
    ensures { Prints K.Sink pen.old pen.new (printed (day_page P day.now)) }
{
    pen.start(
        b"html",
        &[Attribute {
            name: b"lang",
            value: b"en",
        }],
    );
    write_head(pen);
    write_body(pen, day, end);
    pen.close(b"html");
}

/// What a browser reads and doesn't show in the page.
fn write_head<const P: usize, K: Sink>(pen: &mut Pen<'_, P, K>)
    ensures { Prints K.Sink pen.old pen.new (printed day_head) }
{
    pen.open(b"head");
    write_told(pen);
    write_style(pen);
    pen.close(b"head");
}

/// What a browser is told of the page.
fn write_told<const P: usize, K: Sink>(pen: &mut Pen<'_, P, K>)
    ensures { Prints K.Sink pen.old pen.new (printed told_of_page) }
{
    pen.write(&[
        Piece::Begin(b"meta"),
        Piece::With(b"charset", Cell::Bytes(b"utf-8")),
        Piece::Within,
        Piece::Begin(b"meta"),
        Piece::With(b"name", Cell::Bytes(b"viewport")),
        Piece::With(b"content", Cell::Bytes(b"width=device-width")),
        Piece::Within,
        Piece::Start(b"title"),
        Piece::Text(Cell::Bytes(b"A day of ballot entry")),
        Piece::End(b"title"),
    ]);
}

/// What is seen of the page.
fn write_body<const P: usize, K: Sink>(pen: &mut Pen<'_, P, K>, day: &DayText<P>, end: &DayEnd)
    requires printable { All (IsPrintableSheet P) day.now.sheets }
    requires end { end.now ≡ day_end day.now.history }
    ensures { Prints K.Sink pen.old pen.new (printed (day_body P day.now)) }
{
    pen.open(b"body");
    write_content(pen, day, end);
    pen.close(b"body");
}

/// The calls with their answers, what is in the end, and the sheet of each freeze.
fn write_content<const P: usize, K: Sink>(pen: &mut Pen<'_, P, K>, day: &DayText<P>, end: &DayEnd)
    requires printable { All (IsPrintableSheet P) day.now.sheets }
    requires end { end.now ≡ day_end day.now.history }
    ensures { Prints K.Sink pen.old pen.new (printed (day_content P day.now)) }
{
    write_content_of(pen, &day.history, end, &day.sheets);
}

/// Calls with their answers, what is in the end, and sheets.
fn write_content_of<const P: usize, K: Sink>(
    pen: &mut Pen<'_, P, K>,
    history: &Entries,
    end: &DayEnd,
    sheets: &DaySheets<P>,
)
    requires printable { All (IsPrintableSheet P) sheets.now }
    ensures { Prints K.Sink pen.old pen.new
        (printed (content_with P history.now.items sheets.now end.now)) }
{
    let calls = history.len() as u64;
    pen.open(b"main");
    write_heading(pen);
    write_links(pen, calls, sheets);
    write_calls(pen, history);
    write_end(pen, end);
    write_freezes(pen, calls, sheets);
    pen.close(b"main");
}

fn write_heading<const P: usize, K: Sink>(pen: &mut Pen<'_, P, K>)
    ensures { Prints K.Sink pen.old pen.new (printed day_heading) }
{
    pen.write(&[
        Piece::Start(b"h1"),
        Piece::Text(Cell::Bytes(b"A day of ballot entry")),
        Piece::End(b"h1"),
    ]);
}
