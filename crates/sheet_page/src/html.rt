// A sheet as a page.
ghost use Rattle.page_tree.specs.Print.{printed};
ghost use Rattle.piece_text.specs.Writing.{Writes};
ghost use Rattle.sheet_reader.specs.Form.{IsPrintable};
ghost use Rattle.sheet_page.specs.Html.{body, content, head, heading, html_of, page, sheet_parts, style_part, window_title};
ghost use Rattle.sheet_page.specs.Prints.{Prints};

use crate::PartNames;
use crate::cell::Cell;
use crate::elected::write_elected;
use crate::links::write_links;
use crate::pen::Pen;
use crate::piece::Piece;
use crate::promised::write_promise;
use crate::round_parts::write_round_parts;
use crate::rounds::write_rounds;
use crate::style::STYLE;
use crate::told::write_result;
use crate::widths::sheet_full;
use byte_edge::{Failed, Sink};
use page_tree::Attribute;
use sheet_reader::SheetValuesAt;

/// Writes the values of a sheet as a page.
pub(crate) fn write_html<const P: usize, K: Sink>(
    values: &SheetValuesAt<P>,
    sink: &mut K,
) -> Result<(), Failed>
    requires printable { IsPrintable P values.now }
    ensures { Writes K.written K.faults sink.old sink.new (html_of P values.now) result }
{
    let mut pen = Pen::new(sink);
    pen.piece(&Piece::Raw(b"<!DOCTYPE html>"));
    write_page(&mut pen, values);
    pen.piece(&Piece::Raw(b"\n"));
    pen.end()
}

/// All after the line that says that it is HTML.
fn write_page<const P: usize, K: Sink>(pen: &mut Pen<'_, P, K>, values: &SheetValuesAt<P>)
    requires printable { IsPrintable P values.now }
    ensures { Prints K.Sink pen.old pen.new (printed (page P values.now)) }
{
    pen.start(
        b"html",
        &[Attribute {
            name: b"lang",
            value: b"en",
        }],
    );
    write_head(pen, values);
    write_body(pen, values);
    pen.close(b"html");
}

/// What a browser reads and doesn't show in the page.
fn write_head<const P: usize, K: Sink>(pen: &mut Pen<'_, P, K>, values: &SheetValuesAt<P>)
    ensures { Prints K.Sink pen.old pen.new (printed (head values.now)) }
{
    pen.open(b"head");
    pen.start(
        b"meta",
        &[Attribute {
            name: b"charset",
            value: b"utf-8",
        }],
    );
    pen.start(
        b"meta",
        &[
            Attribute {
                name: b"name",
                value: b"viewport",
            },
            Attribute {
                name: b"content",
                value: b"width=device-width",
            },
        ],
    );
    write_window_title(pen, values.title.bytes());
    write_style(pen);
    pen.close(b"head");
}

/// What the window of a browser is called.
fn write_window_title<const P: usize, K: Sink>(pen: &mut Pen<'_, P, K>, text: &[u8])
    ensures { Prints K.Sink pen.old pen.new (printed (window_title text.now)) }
{
    pen.write(&[
        Piece::Start(b"title"),
        Piece::Text(Cell::Bytes(text)),
        Piece::End(b"title"),
    ]);
}

/// Writes how a page looks.
pub fn write_style<const P: usize, K: Sink>(pen: &mut Pen<'_, P, K>)
    ensures { Prints K.Sink pen.old pen.new (printed style_part) }
{
    pen.write(&[
        Piece::Start(b"style"),
        Piece::Text(Cell::Bytes(STYLE)),
        Piece::End(b"style"),
    ]);
}

/// What is seen of the page.
fn write_body<const P: usize, K: Sink>(pen: &mut Pen<'_, P, K>, values: &SheetValuesAt<P>)
    requires printable { IsPrintable P values.now }
    ensures { Prints K.Sink pen.old pen.new (printed (body P values.now)) }
{
    pen.open(b"body");
    write_content(pen, values);
    pen.close(b"body");
}

/// What a page is for.
fn write_content<const P: usize, K: Sink>(pen: &mut Pen<'_, P, K>, values: &SheetValuesAt<P>)
    requires printable { IsPrintable P values.now }
    ensures { Prints K.Sink pen.old pen.new (printed (content P values.now)) }
{
    pen.open(b"main");
    write_sheet_parts(pen, PartNames::Alone, values);
    pen.close(b"main");
}

/// Writes all that a page shows of a sheet.
pub fn write_sheet_parts<const P: usize, K: Sink>(
    pen: &mut Pen<'_, P, K>,
    names: PartNames,
    values: &SheetValuesAt<P>,
)
    requires printable { IsPrintable P values.now }
    ensures { Prints K.Sink pen.old pen.new (printed (sheet_parts names P values.now)) }
{
    write_heading(pen, values);
    write_links(pen, names, values);
    write_elected(pen, values);
    write_result(pen, values);
    write_promise(pen, values);
    write_rounds(pen, names, values);
    write_round_parts(pen, names, values, sheet_full(values));
}

/// The title of the election, and the numbers of seats and ballots.
fn write_heading<const P: usize, K: Sink>(pen: &mut Pen<'_, P, K>, values: &SheetValuesAt<P>)
    ensures { Prints K.Sink pen.old pen.new (printed (heading values.now)) }
{
    pen.write(&[
        Piece::Start(b"h1"),
        Piece::Text(Cell::Bytes(values.title.bytes())),
        Piece::End(b"h1"),
        Piece::Start(b"p"),
        Piece::Text(Cell::Bytes(b"Seats: ")),
        Piece::Text(Cell::Count(values.seats as u64)),
        Piece::Text(Cell::Bytes(b". Ballots: ")),
        Piece::Text(Cell::Count(values.ballots)),
        Piece::Text(Cell::Bytes(b".")),
        Piece::End(b"p"),
    ]);
}
