// The tool that audits the text of a day, over two inputs.
ghost use Rattle.std.specs.Prelude.{◌≤◌, map, length};
ghost use Rattle.std.specs.String.{string_bytes};
ghost use Rattle.tool_edge.specs.Finishing.{FinishesOwed};
ghost use Rattle.tool_edge.specs.Streams.{reading, writing};
ghost use Rattle.tool_edge.specs.Tool.{IsOwedFor, no_history};
ghost use Rattle.tool_edge.specs.declared.opening.TheConstants.{DAY_LIMIT};
ghost use Rattle.sheet_check.specs.TwoInputs.{IsRunOfTwo, over_file};
ghost use Rattle.day_audit.specs.Audit.{audits_two};

use crate::day_file::read_whole_day;
use crate::tool::judge_day;
use byte_edge::{Sink, Source};
use day_reader::{accepts_days, refuses_by_the_rule};
use sheet_check::{TwoInputs, TwoLimits, open_two};
use sheet_input::SHEET_LIMIT;
use std::alloc::Global;
use std::thread::Threads;
use tool_edge::{DAY_LIMIT, End, refuse_input, takes_nothing};

/// Audits a text by the day file of another input, and writes the verdict. The whole first input is held to be the text
/// of the whole second: a byte after the text makes its last line false.
pub fn audit_two<R: Threads + Sync, T: Source, S: Source, K: Sink>(
    rt: &R,
    alloc: Global,
    words: &[String],
    of_text: &mut T,
    of_file: &mut S,
    sink: &mut K,
) -> End
    ensures { IsRunOfTwo audits_two (map string_bytes words.now)
        (reading T.left T.faults of_text.old of_text.new) (reading S.left S.faults of_file.old of_file.new)
        (writing K.written K.faults sink.old sink.new) result }
{
    accepts_days();
    refuses_by_the_rule();
    let limits = TwoLimits {
        text: SHEET_LIMIT,
        file: DAY_LIMIT,
    };
    match open_two(alloc, takes_nothing(words), limits, of_text, of_file, sink) {
        Ok(inputs) => audit_inputs(rt, alloc, inputs, sink),
        Err(end) => end,
    }
}

/// Audits what was read. The bytes of the day file are let go before anything is made of the day.
#[tactic(auto, using(crate::proofs::TwoAudits::judged, crate::proofs::TwoAudits::refused))]
fn audit_inputs<R: Threads + Sync, K: Sink>(
    rt: &R,
    alloc: Global,
    inputs: TwoInputs<()>,
    sink: &mut K,
) -> End
    requires { length inputs.file.items ≤ DAY_LIMIT }
    ensures { FinishesOwed (IsOwedFor (over_file audits_two inputs.text.items) inputs.asked inputs.file.items no_history) result
        (writing K.written K.faults sink.old sink.new) }
{
    let TwoInputs { text, file, .. } = inputs;
    match read_whole_day(alloc, file) {
        Ok(day) => judge_day(rt, alloc, text.as_slice(), day, sink),
        Err(stop) => refuse_input(sink, stop),
    }
}
