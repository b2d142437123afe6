// The tool that says what a count promises.
ghost use Rattle.std.specs.Prelude.{◌≤◌, map, length};
ghost use Rattle.std.specs.String.{string_bytes};
ghost use Rattle.sheet_input.specs.declared.sheet_limit.TheConstants.{SHEET_LIMIT};
ghost use Rattle.tool_edge.specs.Finishing.{FinishesOwed};
ghost use Rattle.tool_edge.specs.Streams.{reading, writing};
ghost use Rattle.tool_edge.specs.Tool.{IsOwedFor, IsRun, no_history};
ghost use Rattle.sheet_reader.specs.Form.{IsPrintable};
ghost use Rattle.count_promise.specs.Owed.{IsPromised, promises};

use crate::lines::promise_of;
use byte_edge::{Sink, Source};
use sheet_input::{SHEET_LIMIT, SheetFault};
use sheet_reader::{SheetStop, SheetValues, read_sheet};
use std::alloc::Global;
use tool_edge::{End, finish, open, refuse, takes_nothing};

/// Says what the count promises whose sheet the source gives. An input that is no sheet is refused by a
/// line that says so. No words are taken. All memory is taken before the first byte.
pub fn promise<S: Source, K: Sink>(
    alloc: Global,
    words: &[String],
    source: &mut S,
    sink: &mut K,
) -> End<SheetFault>
    ensures { IsRun promises (map string_bytes words.now)
        (reading S.left S.faults source.old source.new) (writing K.written K.faults sink.old sink.new)
        result no_history }
{
    let asked = takes_nothing(words);
    let opened = match open(alloc, asked, SHEET_LIMIT, source, sink) {
        Ok(opened) => opened,
        Err(end) => return end,
    };
    tell(alloc, opened.input.as_slice(), sink)
}

/// Judges the whole input, and says what it promises.
#[tactic(auto, using(crate::proofs::Owing::promise_owed, crate::proofs::Owing::malformed_owed))]
fn tell<K: Sink>(alloc: Global, input: &[u8], sink: &mut K) -> End<SheetFault>
    requires { length input.now ≤ SHEET_LIMIT }
    ensures { FinishesOwed (IsOwedFor promises (tt {0}) input.now no_history) result
        (writing K.written K.faults sink.old sink.new) }
{
    match read_sheet::<9>(alloc, input) {
        Ok(values) => tell_values(alloc, &values, sink),
        Err(SheetStop::Malformed) => refuse(sink, SheetFault::Malformed),
        Err(SheetStop::NoMemory) => End::NoMemory,
    }
}

/// Says what a sheet of these values promises.
fn tell_values<K: Sink>(alloc: Global, values: &SheetValues, sink: &mut K) -> End<SheetFault>
    requires { IsPrintable 9 values.now }
    ensures { FinishesOwed (IsPromised values.now) result
        (writing K.written K.faults sink.old sink.new) }
{
    match promise_of(alloc, values) {
        Ok(text) => finish(sink, End::Done, text.bytes()),
        Err(_) => End::NoMemory,
    }
}
