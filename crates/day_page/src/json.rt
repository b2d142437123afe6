// A day as JSON.
ghost use Rattle.std.specs.Prelude.{◌≡◌, ◌++◌, All, decimal, map, nat_eq};
ghost use Rattle.piece_text.specs.Writing.{Writes};
ghost use Rattle.day_text.specs.End.{day_end};
ghost use Rattle.day_text.specs.Form.{IsPrintableSheet};
ghost use Rattle.sheet_reader.specs.Form.{IsPrintable};
ghost use Rattle.day_lines.specs.EntryText.{numbered};
ghost use Rattle.sheet_page.specs.Json.{comma_at, truth};
ghost use Rattle.sheet_page.specs.Prints.{Prints};
ghost use Rattle.day_page.specs.DayJson.{answered_json, batch_json, call_json, calls_json, day_json, end_json, freeze_head, freeze_json, freezes_json, frozen_json, json_with, listed, stands_json};

use crate::call_words::{call_words, reply_words};
use batch_core::{Entries, Entry};
use byte_edge::{Failed, Sink};
use day_text::{BatchEnd, DayEnd, DaySheet, DaySheets, DayText};
use sheet_page::{Cell, Pen, Piece, comma_at, truth, write_sheet_json};
use sheet_reader::SheetValuesAt;

/// Writes a day as JSON, in one line, with what is in its end.
pub(crate) fn write_day_json<const P: usize, K: Sink>(
    day: &DayText<P>,
    end: &DayEnd,
    sink: &mut K,
) -> Result<(), Failed>
    requires printable { All (IsPrintableSheet P) day.now.sheets }
    requires end { end.now ≡ day_end day.now.history }
    ensures { Writes K.written K.faults sink.old sink.new (day_json P day.now) result }
{
    let mut pen = Pen::new(sink);
    write_day(&mut pen, day, end);
    pen.piece(&Piece::Raw(b"\n"));
    pen.end()
}

/// The whole object.
fn write_day<const P: usize, K: Sink>(pen: &mut Pen<'_, P, K>, day: &DayText<P>, end: &DayEnd)
    requires printable { All (IsPrintableSheet P) day.now.sheets }
    ensures { Prints K.Sink pen.old pen.new (json_with P day.now.history day.now.sheets end.now) }
{
    write_day_of(pen, &day.history, end, &day.sheets);
}

/// Calls with their answers, what is in the end, and sheets.
fn write_day_of<const P: usize, K: Sink>(
    pen: &mut Pen<'_, P, K>,
    history: &Entries,
    end: &DayEnd,
    sheets: &DaySheets<P>,
)
    requires printable { All (IsPrintableSheet P) sheets.now }
    ensures { Prints K.Sink pen.old pen.new (json_with P history.now.items sheets.now end.now) }
{
    let calls = history.len() as u64;
    write_calls(pen, history);
    write_end(pen, end);
    write_freezes(pen, calls, sheets);
}

/// What is before the item at a place of a list.
fn write_comma<const P: usize, K: Sink>(pen: &mut Pen<'_, P, K>, place: usize)
    ensures { Prints K.Sink pen.old pen.new (comma_at place) }
{
    pen.piece(&Piece::Raw(comma_at(place)));
}

/// The list of calls.
fn write_calls<const P: usize, K: Sink>(pen: &mut Pen<'_, P, K>, history: &Entries)
    ensures { Prints K.Sink pen.old pen.new (calls_json history.now.items) }
{
    pen.piece(&Piece::Raw(b"{\"calls\":["));
    write_entries(pen, history);
}

fn write_entries<const P: usize, K: Sink>(pen: &mut Pen<'_, P, K>, history: &Entries)
    ensures { Prints K.Sink pen.old pen.new (listed (map (λ e. call_json e.0 e.1) (numbered history.now.items))) }
{
    for i in 0..history.len() {
        write_comma(pen, i);
        write_entry(pen, i as u64 + 1, history.get(i));
    }
}

/// The n-th call.
fn write_entry<const P: usize, K: Sink>(pen: &mut Pen<'_, P, K>, n: u64, entry: &Entry)
    ensures { Prints K.Sink pen.old pen.new (call_json n entry.now) }
{
    let call = call_words(&entry.call);
    let reply = reply_words(entry.reply);
    write_answered(pen, n, entry.caller as u64, call.bytes(), reply.bytes());
}

fn write_answered<'x, const P: usize, K: Sink>(
    pen: &mut Pen<'_, P, K>,
    number: u64,
    caller: u64,
    call: &'x [u8],
    reply: &'x [u8],
)
    ensures { Prints K.Sink pen.old pen.new (answered_json number caller call.now reply.now) }
{
    pen.write(&[
        Piece::Raw(b"{\"number\":"),
        Piece::Number(number),
        Piece::Raw(b",\"caller\":"),
        Piece::Number(caller),
        Piece::Raw(b",\"call\":"),
        Piece::Quoted(Cell::Bytes(call)),
        Piece::Raw(b",\"answer\":"),
        Piece::Quoted(Cell::Bytes(reply)),
        Piece::Raw(b"}"),
    ]);
}

/// The lists of what is in the end.
fn write_end<const P: usize, K: Sink>(pen: &mut Pen<'_, P, K>, end: &DayEnd)
    ensures { Prints K.Sink pen.old pen.new (end_json end.now) }
{
    write_stands(pen, end.batches.as_slice(), end.struck.as_slice());
}

fn write_stands<const P: usize, K: Sink>(
    pen: &mut Pen<'_, P, K>,
    batches: &[BatchEnd],
    struck: &[u32],
)
    ensures { Prints K.Sink pen.old pen.new (stands_json batches.now struck.now) }
{
    pen.piece(&Piece::Raw(b"],\"batches\":["));
    write_batches(pen, batches);
    pen.piece(&Piece::Raw(b"],\"struck\":["));
    write_struck(pen, struck);
}

/// The batches that were entered.
fn write_batches<const P: usize, K: Sink>(pen: &mut Pen<'_, P, K>, batches: &[BatchEnd])
    ensures { Prints K.Sink pen.old pen.new (listed (map batch_json batches.now)) }
{
    for i in 0..batches.len() {
        write_comma(pen, i);
        write_batch(pen, batches[i]);
    }
}

fn write_batch<const P: usize, K: Sink>(pen: &mut Pen<'_, P, K>, batch: BatchEnd)
    ensures { Prints K.Sink pen.old pen.new (batch_json batch) }
{
    pen.write(&[
        Piece::Raw(b"{\"number\":"),
        Piece::Number(batch.number as u64),
        Piece::Raw(b",\"revision\":"),
        Piece::Number(batch.revision as u64),
        Piece::Raw(b",\"stands\":"),
        Piece::Raw(truth(batch.stands)),
        Piece::Raw(b"}"),
    ]);
}

/// The struck candidates.
fn write_struck<const P: usize, K: Sink>(pen: &mut Pen<'_, P, K>, struck: &[u32])
    ensures { Prints K.Sink pen.old pen.new (listed (map decimal struck.now)) }
{
    for i in 0..struck.len() {
        write_comma(pen, i);
        pen.piece(&Piece::Number(struck[i] as u64));
    }
}

/// The list of the freezes of so many calls.
fn write_freezes<const P: usize, K: Sink>(
    pen: &mut Pen<'_, P, K>,
    calls: u64,
    sheets: &DaySheets<P>,
)
    requires printable { All (IsPrintableSheet P) sheets.now }
    ensures { Prints K.Sink pen.old pen.new (freezes_json P calls sheets.now) }
{
    pen.piece(&Piece::Raw(b"],\"freezes\":["));
    write_each(pen, calls, sheets.items());
    pen.piece(&Piece::Raw(b"]}"));
}

fn write_each<const P: usize, K: Sink>(pen: &mut Pen<'_, P, K>, calls: u64, sheets: &[DaySheet<P>])
    requires printable { All (IsPrintableSheet P) sheets.now }
    ensures { Prints K.Sink pen.old pen.new (listed (map (freeze_json P calls) sheets.now)) }
{
    for i in 0..sheets.len() {
        write_comma(pen, i);
        write_freeze(pen, calls, &sheets[i]);
    }
}

/// A freeze and its sheet.
fn write_freeze<const P: usize, K: Sink>(pen: &mut Pen<'_, P, K>, calls: u64, sheet: &DaySheet<P>)
    requires printable { IsPrintableSheet P sheet.now }
    ensures { Prints K.Sink pen.old pen.new (freeze_json P calls sheet.now) }
{
    let own = own(calls, sheet.freeze);
    write_frozen(pen, sheet.freeze, own, &sheet.values);
}

/// Whether a freeze is the office's own: the last of so many calls.
fn own(calls: u64, freeze: u64) -> &'static [u8]
    ensures { result.now ≡ truth (nat_eq freeze calls) }
{
    truth(freeze == calls)
}

/// A freeze, whether it is the office's own, and the object of its sheet.
fn write_frozen<const P: usize, K: Sink>(
    pen: &mut Pen<'_, P, K>,
    freeze: u64,
    own: &[u8],
    values: &SheetValuesAt<P>,
)
    requires printable { IsPrintable P values.now }
    ensures { Prints K.Sink pen.old pen.new (frozen_json P freeze own.now values.now) }
{
    write_freeze_head(pen, freeze, own);
    write_sheet_json(pen, values);
    pen.piece(&Piece::Raw(b"}"));
}

fn write_freeze_head<const P: usize, K: Sink>(pen: &mut Pen<'_, P, K>, freeze: u64, own: &[u8])
    ensures { Prints K.Sink pen.old pen.new (freeze_head freeze own.now) }
{
    pen.write(&[
        Piece::Raw(b"{\"at\":"),
        Piece::Number(freeze),
        Piece::Raw(b",\"own\":"),
        Piece::Raw(own),
        Piece::Raw(b",\"sheet\":"),
    ]);
}
