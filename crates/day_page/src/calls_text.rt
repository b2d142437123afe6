// The calls of a day as lines of a text.
ghost use Rattle.std.specs.Prelude.{◌≡◌};
ghost use Rattle.std.specs.List.{flat_map};
ghost use Rattle.day_lines.specs.EntryText.{numbered};
ghost use Rattle.sheet_page.specs.Prints.{Prints};
ghost use Rattle.day_page.specs.DayMinutes.{answered_line, call_line, calls_text};

use crate::call_words::{call_words, caller_words, reply_words};
use crate::columns::{write_left, write_right};
use batch_core::{Entries, Entry};
use byte_edge::Sink;
use sheet_page::{Pen, Piece};

/// Writes the top of the text, and a line for each call.
pub(crate) fn write_calls<const P: usize, K: Sink>(pen: &mut Pen<'_, P, K>, history: &Entries)
    ensures { Prints K.Sink pen.old pen.new (calls_text history.now.items) }
{
    pen.piece(&Piece::Raw(
        b"A day of ballot entry\n\nCalls\nNumber Who     Call               Answer\n",
    ));
    write_lines(pen, history);
}

fn write_lines<const P: usize, K: Sink>(pen: &mut Pen<'_, P, K>, history: &Entries)
    ensures { Prints K.Sink pen.old pen.new
        (flat_map (λ e. answered_line e.0 e.1) (numbered history.now.items)) }
{
    for i in 0..history.len() {
        write_entry(pen, i as u64 + 1, history.get(i));
    }
}

/// The line of the n-th call.
fn write_entry<const P: usize, K: Sink>(pen: &mut Pen<'_, P, K>, n: u64, entry: &Entry)
    ensures { Prints K.Sink pen.old pen.new (answered_line n entry.now) }
{
    let caller = caller_words(entry.caller);
    let call = call_words(&entry.call);
    let reply = reply_words(entry.reply);
    write_line(pen, n, caller.bytes(), call.bytes(), reply.bytes());
}

fn write_line<const P: usize, K: Sink>(
    pen: &mut Pen<'_, P, K>,
    number: u64,
    caller: &[u8],
    call: &[u8],
    reply: &[u8],
)
    ensures { Prints K.Sink pen.old pen.new (call_line number caller.now call.now reply.now) }
{
    write_right(pen, 6, number);
    pen.piece(&Piece::Raw(b" "));
    write_left(pen, 8, caller);
    write_left(pen, 19, call);
    pen.piece(&Piece::Raw(reply));
    pen.piece(&Piece::Raw(b"\n"));
}
