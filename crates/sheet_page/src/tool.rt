// An input that is shown as a sheet.
ghost use Rattle.std.specs.Prelude.{◌≡◌, ◌≤◌, IfNone, IfSome, length};
ghost use Rattle.sheet_input.specs.declared.sheet_limit.TheConstants.{SHEET_LIMIT};
ghost use Rattle.tool_edge.specs.Finishing.{Finishes, FinishesOwed};
ghost use Rattle.tool_edge.specs.Streams.{writing};
ghost use Rattle.tool_edge.specs.Tool.{IsOwedFor, no_history};
ghost use Rattle.piece_text.specs.Writing.{Writes};
ghost use Rattle.sheet_reader.specs.Form.{HasForm, IsPrintable};
ghost use Rattle.sheet_reader.specs.Values.{SheetList};
ghost use Rattle.sheet_page.specs.Inputs.{HasNoneAbove};
ghost use Rattle.sheet_page.specs.Owed.{shown_as, shows};

use crate::Format;
use crate::csv::{write_csv, write_marked_csv};
use crate::html::write_html;
use crate::json::write_json;
use byte_edge::{Failed, Sink};
use sheet_input::SheetFault;
use sheet_minutes::write_minutes;
use sheet_reader::{SheetStop, SheetValuesAt, read_sheet};
use std::alloc::Global;
use tool_edge::{End, close, refuse};

/// Shows the whole input at its own places: the greatest number, from 6 to 9, at which it is a sheet. At each
/// number but its own a sheet is given up at its first amount, so that one reading at most goes further. An
/// input that is no sheet is refused by a line that says so. All memory is taken before the first byte.
pub fn show_sheet<K: Sink>(
    alloc: Global,
    format: Format,
    input: &[u8],
    sink: &mut K,
) -> End<SheetFault>
    requires { length input.now ≤ SHEET_LIMIT }
    ensures { FinishesOwed (IsOwedFor shows format input.now no_history) result
        (writing K.written K.faults sink.old sink.new) }
{
    macro_rules! show_at {
        ($($at:literal)*) => {
            $(if let Some(end) = show_at::<$at, K>(alloc, format, input, sink) {
                return end;
            })*
        };
    }
    show_at!(9 8 7 6);
    refuse(sink, SheetFault::Malformed)
}

/// Shows an input at `P` places, where it is a sheet at no more of them. Where it is none at these either, nothing is done.
fn show_at<const P: usize, K: Sink>(
    alloc: Global,
    format: Format,
    input: &[u8],
    sink: &mut K,
) -> Option<End<SheetFault>>
    requires places { (6 ≤ P) × (P ≤ 9) }
    requires greatest { HasNoneAbove P input.now }
    requires short { length input.now ≤ SHEET_LIMIT }
    ensures shown { IfSome result (λ end. FinishesOwed (IsOwedFor shows format input.now no_history) end
        (writing K.written K.faults sink.old sink.new)) }
    ensures none { IfNone result ((v : SheetList) → ¬ HasForm P input.now v) }
    ensures untouched { IfNone result (sink.new ≡ sink.old) }
{
    match read_sheet::<P>(alloc, input) {
        Ok(values) => Some(show_values(format, &values, sink)),
        Err(SheetStop::Malformed) => None,
        Err(SheetStop::NoMemory) => Some(End::NoMemory),
    }
}

/// Shows the values of a sheet.
fn show_values<const P: usize, K: Sink>(
    format: Format,
    values: &SheetValuesAt<P>,
    sink: &mut K,
) -> End<SheetFault>
    requires places { (6 ≤ P) × (P ≤ 9) }
    requires printable { IsPrintable P values.now }
    ensures { Finishes End.Done (shown_as P format values.now) result
        (writing K.written K.faults sink.old sink.new) }
{
    let wrote = write_values(format, values, sink);
    close(sink, wrote)
}

/// Writes the values of a sheet.
fn write_values<const P: usize, K: Sink>(
    format: Format,
    values: &SheetValuesAt<P>,
    sink: &mut K,
) -> Result<(), Failed>
    requires places { (6 ≤ P) × (P ≤ 9) }
    requires printable { IsPrintable P values.now }
    ensures { Writes K.written K.faults sink.old sink.new (shown_as P format values.now) result }
{
    match format {
        Format::Html => write_html(values, sink),
        Format::Csv => write_csv(values, sink),
        Format::MarkedCsv => write_marked_csv(values, sink),
        Format::Json => write_json(values, sink),
        Format::Text => write_minutes(values, sink),
    }
}
