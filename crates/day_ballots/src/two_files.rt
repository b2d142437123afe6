// The tool that writes the ballots of a freeze, over two inputs.
ghost use Rattle.std.specs.Prelude.{◌≤◌, map, length};
ghost use Rattle.std.specs.String.{string_bytes};
ghost use Rattle.tool_edge.specs.Finishing.{FinishesOwed};
ghost use Rattle.tool_edge.specs.Streams.{reading, writing};
ghost use Rattle.tool_edge.specs.Tool.{IsOwedFor, no_history};
ghost use Rattle.tool_edge.specs.declared.opening.TheConstants.{DAY_LIMIT};
ghost use Rattle.sheet_check.specs.TwoInputs.{IsRunOfTwo, over_file};
ghost use Rattle.day_ballots.specs.Ballots.{exports_two};

use crate::tool::refuse_file;
use crate::writing::write_at;
use crate::{BallotsFault, takes_line};
use byte_edge::{Sink, Source};
use day_audit::read_whole_day;
use day_reader::{accepts_days, refuses_by_the_rule};
use number_word::words_have_one_number;
use sheet_check::{TwoInputs, TwoLimits, open_two};
use sheet_input::SHEET_LIMIT;
use std::alloc::Global;
use std::thread::Threads;
use tool_edge::{DAY_LIMIT, End};

/// Writes the canonical ballot file of what is at the freeze of a line: the first input is the text of a day, whole,
/// and the second the day file. Lines after that one are not looked at, nor are sheets compared.
pub fn ballots_two<R: Threads + Sync, T: Source, S: Source, K: Sink>(
    rt: &R,
    alloc: Global,
    words: &[String],
    of_text: &mut T,
    of_file: &mut S,
    sink: &mut K,
) -> End<BallotsFault>
    ensures { IsRunOfTwo exports_two (map string_bytes words.now)
        (reading T.left T.faults of_text.old of_text.new) (reading S.left S.faults of_file.old of_file.new)
        (writing K.written K.faults sink.old sink.new) result }
{
    accepts_days();
    refuses_by_the_rule();
    words_have_one_number();
    let limits = TwoLimits {
        text: SHEET_LIMIT,
        file: DAY_LIMIT,
    };
    match open_two(
        alloc,
        takes_line(alloc, words),
        limits,
        of_text,
        of_file,
        sink,
    ) {
        Ok(inputs) => write_inputs(rt, alloc, inputs, sink),
        Err(end) => end,
    }
}

/// Writes the ballots of a line of what was read. The bytes of the day file are let go before anything is made of the day.
#[tactic(auto, using(crate::proofs::TwoOwing::at_line, crate::proofs::TwoOwing::refused))]
fn write_inputs<R: Threads + Sync, K: Sink>(
    rt: &R,
    alloc: Global,
    inputs: TwoInputs<u32>,
    sink: &mut K,
) -> End<BallotsFault>
    requires { length inputs.file.items ≤ DAY_LIMIT }
    ensures { FinishesOwed (IsOwedFor (over_file exports_two inputs.text.items) inputs.asked inputs.file.items no_history) result
        (writing K.written K.faults sink.old sink.new) }
{
    let TwoInputs { asked, text, file } = inputs;
    match read_whole_day(alloc, file) {
        Ok(day) => write_at(rt, alloc, asked, text.as_slice(), day, sink),
        Err(stop) => refuse_file(sink, stop),
    }
}
