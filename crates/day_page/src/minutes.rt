// A day as a text for a terminal, a mail or the minutes.
ghost use Rattle.std.specs.Prelude.{◌≡◌, ◌≤◌, All};
ghost use Rattle.std.specs.List.{flat_map};
ghost use Rattle.piece_text.specs.Writing.{Writes};
ghost use Rattle.day_text.specs.End.{day_end};
ghost use Rattle.sheet_reader.specs.Form.{IsPrintable};
ghost use Rattle.day_text.specs.Form.{IsPrintableSheet};
ghost use Rattle.sheet_page.specs.Prints.{Prints};
ghost use Rattle.day_page.specs.DayMinutes.{day_minutes, freeze_text, minutes_with, title_text, titled_text};
ghost use Rattle.day_page.specs.Lists.{own_first};

use crate::calls_text::write_calls;
use crate::end_text::write_end;
use crate::freezes::{own_apart, whose};
use batch_core::Entries;
use byte_edge::{Failed, Sink};
use day_text::{DayEnd, DaySheet, DaySheets, DayText};
use sheet_page::{Pen, Piece};
use sheet_reader::SheetValuesAt;

/// Writes a day as a text, with what is in its end.
pub(crate) fn write_day_minutes<const P: usize, K: Sink>(
    day: &DayText<P>,
    end: &DayEnd,
    sink: &mut K,
) -> Result<(), Failed>
    requires places { (6 ≤ P) × (P ≤ 9) }
    requires printable { All (IsPrintableSheet P) day.now.sheets }
    requires end { end.now ≡ day_end day.now.history }
    ensures { Writes K.written K.faults sink.old sink.new (day_minutes P day.now) result }
{
    write_minutes_of(&day.history, end, &day.sheets, sink)
}

/// Writes calls, what is in their end, and sheets.
fn write_minutes_of<const P: usize, K: Sink>(
    history: &Entries,
    end: &DayEnd,
    sheets: &DaySheets<P>,
    sink: &mut K,
) -> Result<(), Failed>
    requires places { (6 ≤ P) × (P ≤ 9) }
    requires printable { All (IsPrintableSheet P) sheets.now }
    ensures { Writes K.written K.faults sink.old sink.new
        (minutes_with P history.now.items sheets.now end.now) result }
{
    let mut pen = Pen::new(sink);
    let calls = history.len() as u64;
    write_calls(&mut pen, history);
    write_end(&mut pen, end);
    write_freezes(&mut pen, calls, sheets);
    pen.end()
}

/// Each freeze of so many calls.
fn write_freezes<const P: usize, K: Sink>(
    pen: &mut Pen<'_, P, K>,
    calls: u64,
    sheets: &DaySheets<P>,
)
    requires places { (6 ≤ P) × (P ≤ 9) }
    requires printable { All (IsPrintableSheet P) sheets.now }
    ensures { Prints K.Sink pen.old pen.new (flat_map (freeze_text P calls) (own_first sheets.now)) }
{
    let (others, own) = own_apart(sheets);
    write_each(pen, calls, own);
    write_each(pen, calls, others);
}

fn write_each<const P: usize, K: Sink>(pen: &mut Pen<'_, P, K>, calls: u64, sheets: &[DaySheet<P>])
    requires places { (6 ≤ P) × (P ≤ 9) }
    requires printable { All (IsPrintableSheet P) sheets.now }
    ensures { Prints K.Sink pen.old pen.new (flat_map (freeze_text P calls) sheets.now) }
{
    for sheet in sheets {
        write_freeze(pen, calls, sheet);
    }
}

/// A freeze and its sheet.
fn write_freeze<const P: usize, K: Sink>(pen: &mut Pen<'_, P, K>, calls: u64, sheet: &DaySheet<P>)
    requires places { (6 ≤ P) × (P ≤ 9) }
    requires printable { IsPrintableSheet P sheet.now }
    ensures { Prints K.Sink pen.old pen.new (freeze_text P calls sheet.now) }
{
    let whose = whose(calls, sheet.freeze);
    write_titled(pen, sheet.freeze, whose, &sheet.values);
}

/// A freeze, whose it is, and the text of its sheet.
fn write_titled<const P: usize, K: Sink>(
    pen: &mut Pen<'_, P, K>,
    freeze: u64,
    whose: &[u8],
    values: &SheetValuesAt<P>,
)
    requires places { (6 ≤ P) × (P ≤ 9) }
    requires printable { IsPrintable P values.now }
    ensures { Prints K.Sink pen.old pen.new (titled_text P freeze whose.now values.now) }
{
    write_title(pen, freeze, whose);
    pen.minutes(values);
}

/// Which freeze it is, whose, and after which call.
fn write_title<const P: usize, K: Sink>(pen: &mut Pen<'_, P, K>, freeze: u64, whose: &[u8])
    ensures { Prints K.Sink pen.old pen.new (title_text freeze whose.now) }
{
    pen.write(&[
        Piece::Raw(b"\nFreeze "),
        Piece::Number(freeze),
        Piece::Raw(whose),
        Piece::Raw(b": what stands after call "),
        Piece::Number(freeze),
        Piece::Raw(b"\n\n"),
    ]);
}
