// The tool that checks a sheet, over two inputs.
ghost use Rattle.std.specs.Prelude.{◌≡◌, ◌≤◌, map, length};
ghost use Rattle.std.specs.String.{string_bytes};
ghost use Rattle.tool_edge.specs.Contest.{ReadsContest};
ghost use Rattle.tool_edge.specs.Finishing.{FinishesOwed};
ghost use Rattle.tool_edge.specs.Streams.{reading, writing};
ghost use Rattle.tool_edge.specs.Tool.{IsOwedFor, no_history};
ghost use Rattle.tool_edge.specs.declared.opening.TheConstants.{FILE_LIMIT};
ghost use Rattle.sheet_check.specs.Audit.{audits_two};
ghost use Rattle.sheet_check.specs.TwoInputs.{IsRunOfTwo, over_file};

use crate::Terms;
use crate::tool::write_verdict;
use crate::two_inputs::{TwoInputs, TwoLimits, open_two};
use blt_reader::BltStop;
use byte_edge::{Sink, Source};
use check_words::{Asked, read_check_words, words_ask_one_thing};
use sheet_input::SHEET_LIMIT;
use std::alloc::Global;
use std::thread::Threads;
use tool_edge::{
    Contest, End, FILE_LIMIT, contests_are_not_refused, contests_are_refused_once, refuse_input,
};

/// Checks a sheet against the ballot file of another input, counted with the lots, the rule, the places and the omega
/// of the words, and writes the verdict. The whole first input is held to be the sheet: with a byte before it or after it,
/// it is none.
pub fn check_two<R: Threads + Sync, T: Source, S: Source, K: Sink>(
    rt: &R,
    alloc: Global,
    words: &[String],
    of_sheet: &mut T,
    of_file: &mut S,
    sink: &mut K,
) -> End
    ensures { IsRunOfTwo audits_two (map string_bytes words.now)
        (reading T.left T.faults of_sheet.old of_sheet.new) (reading S.left S.faults of_file.old of_file.new)
        (writing K.written K.faults sink.old sink.new) result }
{
    words_ask_one_thing();
    contests_are_not_refused();
    contests_are_refused_once();
    let asked = read_check_words(alloc, words);
    let limits = TwoLimits {
        text: SHEET_LIMIT,
        file: FILE_LIMIT,
    };
    match open_two(alloc, asked, limits, of_sheet, of_file, sink) {
        Ok(inputs) => check_inputs(rt, alloc, inputs, sink),
        Err(end) => end,
    }
}

/// Checks what was read. The bytes of the ballot file are let go before anything is made of the ballots.
#[tactic(auto, using(crate::proofs::TwoAudits::judged, crate::proofs::TwoAudits::refused))]
fn check_inputs<R: Threads + Sync, K: Sink>(
    rt: &R,
    alloc: Global,
    inputs: TwoInputs<Asked>,
    sink: &mut K,
) -> End
    requires { length inputs.file.items ≤ FILE_LIMIT }
    ensures { FinishesOwed (IsOwedFor (over_file audits_two inputs.text.items) inputs.asked inputs.file.items no_history) result
        (writing K.written K.faults sink.old sink.new) }
{
    let TwoInputs { asked, text, file } = inputs;
    match read_contest(alloc, asked.lots.items(), file) {
        Ok(Contest { election, lots }) => {
            let terms = Terms {
                lots,
                rule: asked.rule,
                places: asked.places,
                omega: asked.omega,
            };
            write_verdict(rt, alloc, text.as_slice(), election, &terms, sink)
        }
        Err(stop) => refuse_input(sink, stop),
    }
}

/// Reads a ballot file, takes these lots for it, and lets its bytes go.
fn read_contest(alloc: Global, lots: &[u32], file: Vec<u8>) -> Result<Contest, BltStop>
    ensures { ReadsContest lots.now file.items result }
{
    Contest::read(alloc, lots, file.as_slice())
}
