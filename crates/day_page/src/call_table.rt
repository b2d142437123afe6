// The calls of a day as a table on a page.
ghost use Rattle.std.specs.Prelude.{◌≡◌, ◌+◌, codes};
ghost use Rattle.std.specs.List.{flat_map};
ghost use Rattle.day_lines.specs.EntryText.{numbered};
ghost use Rattle.page_tree.specs.Print.{opening, printed};
ghost use Rattle.sheet_page.specs.Prints.{Prints};
ghost use Rattle.day_page.specs.CallTable.{call_heads, call_row, call_rows, call_table, calls_frame, calls_frame_attributes, calls_part, calls_title, entry_row};

use crate::call_words::{call_words, caller_words, reply_words};
use batch_core::{Entries, Entry};
use byte_edge::Sink;
use sheet_page::{Cell, Pen, Piece};

/// Writes the part of a page that has the calls.
pub(crate) fn write_calls<const P: usize, K: Sink>(pen: &mut Pen<'_, P, K>, history: &Entries)
    ensures { Prints K.Sink pen.old pen.new (printed (calls_part history.now.items)) }
{
    pen.open(b"section");
    write_title(pen);
    write_frame(pen, history);
    pen.close(b"section");
}

fn write_title<const P: usize, K: Sink>(pen: &mut Pen<'_, P, K>)
    ensures { Prints K.Sink pen.old pen.new (printed calls_title) }
{
    pen.write(&[
        Piece::Start(b"h2"),
        Piece::Text(Cell::Bytes(b"Calls")),
        Piece::End(b"h2"),
    ]);
}

fn write_frame<const P: usize, K: Sink>(pen: &mut Pen<'_, P, K>, history: &Entries)
    ensures { Prints K.Sink pen.old pen.new (printed (calls_frame history.now.items)) }
{
    write_frame_start(pen);
    write_table(pen, history);
    pen.close(b"div");
}

fn write_frame_start<const P: usize, K: Sink>(pen: &mut Pen<'_, P, K>)
    ensures { Prints K.Sink pen.old pen.new (opening (codes "div") calls_frame_attributes) }
{
    pen.write(&[
        Piece::Begin(b"div"),
        Piece::With(b"tabindex", Cell::Bytes(b"0")),
        Piece::With(b"role", Cell::Bytes(b"region")),
        Piece::With(b"aria-label", Cell::Bytes(b"Calls")),
        Piece::Within,
    ]);
}

fn write_table<const P: usize, K: Sink>(pen: &mut Pen<'_, P, K>, history: &Entries)
    ensures { Prints K.Sink pen.old pen.new (printed (call_table history.now.items)) }
{
    pen.open(b"table");
    write_heads(pen);
    write_body(pen, history);
    pen.close(b"table");
}

/// The names of the columns.
fn write_heads<const P: usize, K: Sink>(pen: &mut Pen<'_, P, K>)
    ensures { Prints K.Sink pen.old pen.new (printed call_heads) }
{
    pen.write(&[
        Piece::Start(b"thead"),
        Piece::Start(b"tr"),
        Piece::Begin(b"th"),
        Piece::With(b"scope", Cell::Bytes(b"col")),
        Piece::Within,
        Piece::Text(Cell::Bytes(b"Number")),
        Piece::End(b"th"),
        Piece::Begin(b"th"),
        Piece::With(b"scope", Cell::Bytes(b"col")),
        Piece::Within,
        Piece::Text(Cell::Bytes(b"Who")),
        Piece::End(b"th"),
        Piece::Begin(b"th"),
        Piece::With(b"scope", Cell::Bytes(b"col")),
        Piece::Within,
        Piece::Text(Cell::Bytes(b"Call")),
        Piece::End(b"th"),
        Piece::Begin(b"th"),
        Piece::With(b"scope", Cell::Bytes(b"col")),
        Piece::Within,
        Piece::Text(Cell::Bytes(b"Answer")),
        Piece::End(b"th"),
        Piece::End(b"tr"),
        Piece::End(b"thead"),
    ]);
}

fn write_body<const P: usize, K: Sink>(pen: &mut Pen<'_, P, K>, history: &Entries)
    ensures { Prints K.Sink pen.old pen.new (printed (call_rows history.now.items)) }
{
    pen.open(b"tbody");
    write_rows(pen, history);
    pen.close(b"tbody");
}

/// A row for each call.
fn write_rows<const P: usize, K: Sink>(pen: &mut Pen<'_, P, K>, history: &Entries)
    ensures { Prints K.Sink pen.old pen.new
        (flat_map (λ e. printed (entry_row e.0 e.1)) (numbered history.now.items)) }
{
    for i in 0..history.len() {
        write_entry(pen, i as u64 + 1, history.get(i));
    }
}

/// The row of the n-th call.
fn write_entry<const P: usize, K: Sink>(pen: &mut Pen<'_, P, K>, n: u64, entry: &Entry)
    ensures { Prints K.Sink pen.old pen.new (printed (entry_row n entry.now)) }
{
    let caller = caller_words(entry.caller);
    let call = call_words(&entry.call);
    let reply = reply_words(entry.reply);
    write_row(pen, n, caller.bytes(), call.bytes(), reply.bytes());
}

fn write_row<'x, const P: usize, K: Sink>(
    pen: &mut Pen<'_, P, K>,
    number: u64,
    caller: &'x [u8],
    call: &'x [u8],
    reply: &'x [u8],
)
    ensures { Prints K.Sink pen.old pen.new (printed (call_row number caller.now call.now reply.now)) }
{
    pen.write(&[
        Piece::Start(b"tr"),
        Piece::Begin(b"th"),
        Piece::With(b"scope", Cell::Bytes(b"row")),
        Piece::Within,
        Piece::Text(Cell::Count(number)),
        Piece::End(b"th"),
        Piece::Start(b"td"),
        Piece::Text(Cell::Bytes(caller)),
        Piece::End(b"td"),
        Piece::Start(b"td"),
        Piece::Text(Cell::Bytes(call)),
        Piece::End(b"td"),
        Piece::Start(b"td"),
        Piece::Text(Cell::Bytes(reply)),
        Piece::End(b"td"),
        Piece::End(b"tr"),
    ]);
}
