// The tool that checks a sheet.
ghost use Rattle.std.specs.Prelude.{◌≡◌, ◌≤◌, map, length, take};
ghost use Rattle.std.specs.String.{string_bytes};
ghost use Rattle.tool_edge.specs.Finishing.{FinishesOwed};
ghost use Rattle.tool_edge.specs.Streams.{reading, writing};
ghost use Rattle.tool_edge.specs.Tool.{IsOwedFor, IsRun, no_history};
ghost use Rattle.blt_reader.specs.Election.{poll};
ghost use Rattle.sheet_check.specs.Audit.{audits, IsOwedVerdict};
ghost use Rattle.sheet_input.specs.declared.sheet_limit.TheConstants.{SHEET_LIMIT};

use crate::behind::read_file_behind;
use crate::split::split;
use crate::verdict_line::verdict_line;
use crate::{Terms, judge};
use blt_reader::{Election, FaultKind, InputFault};
use byte_edge::{Sink, Source};
use check_words::{Asked, read_check_words, words_ask_one_thing};
use sheet_input::SHEET_LIMIT;
use std::alloc::Global;
use std::thread::Threads;
use tool_edge::{
    Contest, End, Opened, contests_are_not_refused, contests_are_refused_once,
    files_are_not_refused, finish, open, refuse, refuse_input,
};

/// Checks the sheet at the front of the input against the ballot file after it, counted with the lots,
/// the rule, the places and the omega of the words, and writes the verdict.
pub fn check<R: Threads + Sync, S: Source, K: Sink>(
    rt: &R,
    alloc: Global,
    words: &[String],
    source: &mut S,
    sink: &mut K,
) -> End
    ensures { IsRun audits (map string_bytes words.now)
        (reading S.left S.faults source.old source.new) (writing K.written K.faults sink.old sink.new) result no_history }
{
    words_ask_one_thing();
    files_are_not_refused();
    contests_are_not_refused();
    contests_are_refused_once();
    let asked = read_check_words(alloc, words);
    let Opened { asked, input } = match open(alloc, asked, SHEET_LIMIT, source, sink) {
        Ok(opened) => opened,
        Err(end) => return end,
    };
    check_input(rt, alloc, asked, input, sink)
}

/// Checks the whole input. The bytes of the ballot file are let go before anything is made of the ballots.
#[tactic(auto, using(crate::proofs::Splits::parts_fit, crate::proofs::Audits::ended_early, crate::proofs::Audits::refused_behind))]
fn check_input<R: Threads + Sync, K: Sink>(
    rt: &R,
    alloc: Global,
    asked: Asked,
    mut input: Vec<u8>,
    sink: &mut K,
) -> End
    requires { length input.items ≤ SHEET_LIMIT }
    ensures { FinishesOwed (IsOwedFor audits asked input.items no_history) result
        (writing K.written K.faults sink.old sink.new) }
{
    let Some((sheet, file)) = split(input.as_slice()) else {
        return refuse(sink, ended(input.len()));
    };
    let len = sheet.len();
    match read_file_behind(alloc, len, asked.lots.items(), file) {
        Ok(Contest { election, lots }) => {
            keep_front(&mut input, len);
            let terms = Terms {
                lots,
                rule: asked.rule,
                places: asked.places,
                omega: asked.omega,
            };
            write_verdict(rt, alloc, input.as_slice(), election, &terms, sink)
        }
        Err(stop) => refuse_input(sink, stop),
    }
}

/// Leaves so many bytes at the front of a text, and gives up the memory of the others.
fn keep_front(text: &mut Vec<u8>, len: usize)
    ensures { text.new.items ≡ take len text.old.items }
{
    text.truncate(len);
    text.shrink_to_fit();
}

/// The fault of an input in which no line is `end`.
fn ended(len: usize) -> InputFault
    ensures { result ≡ record { kind = FaultKind.Ended; at = len } }
{
    InputFault {
        kind: FaultKind::Ended,
        at: len,
    }
}

/// Judges a text that is held to be the sheet of an election by these terms, and writes the verdict.
pub(crate) fn write_verdict<R: Threads + Sync, K: Sink>(
    rt: &R,
    alloc: Global,
    sheet: &[u8],
    election: Election,
    terms: &Terms,
    sink: &mut K,
) -> End
    requires lots_of_all { length terms.now.lots ≡ length election.roll.names }
    requires ballots_of_all { election.ballots.candidates ≡ length election.roll.names }
    ensures { FinishesOwed (IsOwedVerdict (poll election) terms.now sheet.now) result
        (writing K.written K.faults sink.old sink.new) }
{
    match judge(rt, alloc, sheet, election, terms) {
        Ok(verdict) => finish(sink, End::Done, verdict_line(verdict).bytes()),
        Err(_) => End::NoMemory,
    }
}
