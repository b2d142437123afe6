// The calls of a day as a table for spreadsheets.
ghost use Rattle.std.specs.Prelude.{◌≡◌};
ghost use Rattle.std.specs.List.{flat_map};
ghost use Rattle.csv_text.specs.Csv.{record_text};
ghost use Rattle.piece_text.specs.Writing.{Writes};
ghost use Rattle.day_lines.specs.EntryText.{numbered};
ghost use Rattle.sheet_page.specs.Prints.{Prints};
ghost use Rattle.day_page.specs.DayCsv.{call_record, day_csv, entry_record, marked_day_csv, table_head};

use crate::call_words::{call_words, caller_words, reply_words};
use batch_core::{Entries, Entry};
use byte_edge::{Failed, Sink};
use day_text::DayText;
use piece_text::write_bytes;
use sheet_page::{Cell, Pen};

/// Writes the calls of a day as a table for spreadsheets: a head line, and a line for each call.
pub(crate) fn write_day_csv<const P: usize, K: Sink>(
    day: &DayText<P>,
    sink: &mut K,
) -> Result<(), Failed>
    ensures { Writes K.written K.faults sink.old sink.new (day_csv day.now) result }
{
    let mut pen = Pen::new(sink);
    write_table(&mut pen, day);
    pen.end()
}

/// Writes the same table after a byte order mark.
pub(crate) fn write_marked_day_csv<const P: usize, K: Sink>(
    day: &DayText<P>,
    sink: &mut K,
) -> Result<(), Failed>
    ensures { Writes K.written K.faults sink.old sink.new (marked_day_csv day.now) result }
{
    write_bytes(b"\xEF\xBB\xBF", sink)?;
    write_day_csv(day, sink)
}

fn write_table<const P: usize, K: Sink>(pen: &mut Pen<'_, P, K>, day: &DayText<P>)
    ensures { Prints K.Sink pen.old pen.new (day_csv day.now) }
{
    write_head(pen);
    write_rows(pen, &day.history);
}

/// The names of the columns.
fn write_head<const P: usize, K: Sink>(pen: &mut Pen<'_, P, K>)
    ensures { Prints K.Sink pen.old pen.new (record_text table_head) }
{
    pen.record(
        &Cell::Bytes(b"number"),
        &[
            Cell::Bytes(b"caller"),
            Cell::Bytes(b"call"),
            Cell::Bytes(b"answer"),
        ],
    );
}

/// A record for each call.
fn write_rows<const P: usize, K: Sink>(pen: &mut Pen<'_, P, K>, history: &Entries)
    ensures { Prints K.Sink pen.old pen.new
        (flat_map (λ e. record_text (entry_record e.0 e.1)) (numbered history.now.items)) }
{
    for i in 0..history.len() {
        write_entry(pen, i as u64 + 1, history.get(i));
    }
}

/// The record of the n-th call.
fn write_entry<const P: usize, K: Sink>(pen: &mut Pen<'_, P, K>, n: u64, entry: &Entry)
    ensures { Prints K.Sink pen.old pen.new (record_text (entry_record n entry.now)) }
{
    let caller = caller_words(entry.caller);
    let call = call_words(&entry.call);
    let reply = reply_words(entry.reply);
    write_call(pen, n, caller.bytes(), call.bytes(), reply.bytes());
}

fn write_call<'x, const P: usize, K: Sink>(
    pen: &mut Pen<'_, P, K>,
    number: u64,
    caller: &'x [u8],
    call: &'x [u8],
    reply: &'x [u8],
)
    ensures { Prints K.Sink pen.old pen.new (record_text (call_record number caller.now call.now reply.now)) }
{
    pen.record(
        &Cell::Count(number),
        &[Cell::Bytes(caller), Cell::Bytes(call), Cell::Bytes(reply)],
    );
}
