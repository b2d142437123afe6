// The tool that shows a sheet or a day.
ghost use Rattle.std.specs.Prelude.{◌≡◌, ◌≤◌, All, IfNone, IfSome, map, length};
ghost use Rattle.std.specs.String.{string_bytes};
ghost use Rattle.sheet_input.specs.declared.sheet_limit.TheConstants.{SHEET_LIMIT};
ghost use Rattle.tool_edge.specs.Finishing.{FinishesOwed};
ghost use Rattle.tool_edge.specs.Streams.{reading, writing};
ghost use Rattle.tool_edge.specs.Tool.{IsOwedFor, IsRun, no_history};
ghost use Rattle.piece_text.specs.Writing.{Writes};
ghost use Rattle.day_text.specs.End.{day_end};
ghost use Rattle.day_text.specs.Form.{HasDayForm, IsPrintableSheet};
ghost use Rattle.day_text.specs.Values.{DayTextList};
ghost use Rattle.day_page.specs.Inputs.{HasNoneAbove};
ghost use Rattle.day_page.specs.Owed.{day_as, pages};

use crate::csv::{write_day_csv, write_marked_day_csv};
use crate::html::write_html;
use crate::json::write_day_json;
use crate::minutes::write_day_minutes;
use byte_edge::{Failed, Sink, Source};
use day_text::{DayEnd, DayStop, DayText, end_of_day, read_day_text};
use sheet_input::{SHEET_LIMIT, SheetFault};
use sheet_page::{Format, show_sheet, takes_format};
use std::alloc::Global;
use tool_edge::{End, close, open};

/// Shows the sheet or the text of a day that the source gives, in the format that the words ask for. An input that
/// is neither is refused by a line that says so. All memory is taken before the first byte.
pub fn page<S: Source, K: Sink>(
    alloc: Global,
    words: &[String],
    source: &mut S,
    sink: &mut K,
) -> End<SheetFault>
    ensures { IsRun pages (map string_bytes words.now)
        (reading S.left S.faults source.old source.new) (writing K.written K.faults sink.old sink.new)
        result no_history }
{
    let asked = takes_format(words);
    let opened = match open(alloc, asked, SHEET_LIMIT, source, sink) {
        Ok(opened) => opened,
        Err(end) => return end,
    };
    show(alloc, opened.asked, opened.input.as_slice(), sink)
}

/// Shows a day at its own places, and everything else as a sheet. At each number but its own the text of a day is
/// given up at its first amount.
fn show<K: Sink>(alloc: Global, format: Format, input: &[u8], sink: &mut K) -> End<SheetFault>
    requires { length input.now ≤ SHEET_LIMIT }
    ensures { FinishesOwed (IsOwedFor pages format input.now no_history) result
        (writing K.written K.faults sink.old sink.new) }
{
    macro_rules! show_at {
        ($($at:literal)*) => {
            $(if let Some(end) = show_at::<$at, K>(alloc, format, input, sink) {
                return end;
            })*
        };
    }
    show_at!(9 8 7 6);
    show_sheet(alloc, format, input, sink)
}

/// Shows the text of a day at `P` places, where an input is none at more of them. Where it is none at these either, nothing
/// is done.
fn show_at<const P: usize, K: Sink>(
    alloc: Global,
    format: Format,
    input: &[u8],
    sink: &mut K,
) -> Option<End<SheetFault>>
    requires places { (6 ≤ P) × (P ≤ 9) }
    requires greatest { HasNoneAbove P input.now }
    requires short { length input.now ≤ SHEET_LIMIT }
    ensures shown { IfSome result (λ end. FinishesOwed (IsOwedFor pages format input.now no_history) end
        (writing K.written K.faults sink.old sink.new)) }
    ensures none { IfNone result ((v : DayTextList) → ¬ HasDayForm P input.now v) }
    ensures untouched { IfNone result (sink.new ≡ sink.old) }
{
    match read_day_text::<P>(alloc, input) {
        Ok(day) => Some(show_day(alloc, format, &day, sink)),
        Err(DayStop::Malformed) => None,
        Err(DayStop::NoMemory) => Some(End::NoMemory),
    }
}

/// Shows the values of a day.
fn show_day<const P: usize, K: Sink>(
    alloc: Global,
    format: Format,
    day: &DayText<P>,
    sink: &mut K,
) -> End<SheetFault>
    requires places { (6 ≤ P) × (P ≤ 9) }
    requires printable { All (IsPrintableSheet P) day.now.sheets }
    ensures { FinishesOwed (λ due bytes. (due ≡ End.Done) × (bytes ≡ day_as P format day.now)) result
        (writing K.written K.faults sink.old sink.new) }
{
    let Ok(end) = end_of_day(alloc, &day.history) else {
        return End::NoMemory;
    };
    let wrote = write_day(format, day, &end, sink);
    close(sink, wrote)
}

/// Writes the values of a day, with what is in its end.
fn write_day<const P: usize, K: Sink>(
    format: Format,
    day: &DayText<P>,
    end: &DayEnd,
    sink: &mut K,
) -> Result<(), Failed>
    requires places { (6 ≤ P) × (P ≤ 9) }
    requires printable { All (IsPrintableSheet P) day.now.sheets }
    requires end { end.now ≡ day_end day.now.history }
    ensures { Writes K.written K.faults sink.old sink.new (day_as P format day.now) result }
{
    match format {
        Format::Html => write_html(day, end, sink),
        Format::Csv => write_day_csv(day, sink),
        Format::MarkedCsv => write_marked_day_csv(day, sink),
        Format::Json => write_day_json(day, end, sink),
        Format::Text => write_day_minutes(day, end, sink),
    }
}
