// The tool that audits the text of a day.
ghost use Rattle.std.specs.Prelude.{◌≡◌, ◌≤◌, map, length};
ghost use Rattle.day_reader.specs.Said.{AreScripts};
ghost use Rattle.std.specs.String.{string_bytes};
ghost use Rattle.tool_edge.specs.Finishing.{FinishesOwed};
ghost use Rattle.tool_edge.specs.Streams.{reading, writing};
ghost use Rattle.tool_edge.specs.Tool.{IsOwedFor, IsRun, no_history};
ghost use Rattle.sheet_input.specs.declared.sheet_limit.TheConstants.{SHEET_LIMIT};
ghost use Rattle.meek_trial.specs.declared.day.TheConstants.{MOST_TRIAL};
ghost use Rattle.day_audit.specs.Audit.{audits_days, IsOwedLine};
ghost use Rattle.day_replay.specs.Judged.{IsDayVerdict};
ghost use Rattle.day_audit.specs.Words.{MayBeAsked};

use crate::AuditAsked;
use crate::day_file::read_day_file;
use crate::split::{ended, text_and_file};
use crate::verdict_line::line_of;
use crate::words::takes_audit;
use byte_edge::{Sink, Source};
use day_reader::{Day, accepts_days, refuses_by_the_rule};
use day_replay::{judge, judge_trial};
use number_word::words_have_one_number;
use sheet_input::SHEET_LIMIT;
use std::alloc::Global;
use std::thread::Threads;
use tool_edge::{End, Opened, finish, open, refuse, refuse_input};

/// Audits the text of a day at the front of the input by the day file after it, or an input that is the summary of a
/// made day, and writes the verdict.
pub fn audit<R: Threads + Sync, S: Source, K: Sink>(
    rt: &R,
    alloc: Global,
    words: &[String],
    source: &mut S,
    sink: &mut K,
) -> End
    ensures { IsRun audits_days (map string_bytes words.now)
        (reading S.left S.faults source.old source.new) (writing K.written K.faults sink.old sink.new) result no_history }
{
    accepts_days();
    refuses_by_the_rule();
    words_have_one_number();
    let asked = takes_audit(alloc, words);
    let Opened { asked, input } = match open(alloc, asked, SHEET_LIMIT, source, sink) {
        Ok(opened) => opened,
        Err(end) => return end,
    };
    audit_input(rt, alloc, asked, input.as_slice(), sink)
}

/// Audits the whole input.
fn audit_input<R: Threads + Sync, K: Sink>(
    rt: &R,
    alloc: Global,
    asked: AuditAsked,
    input: &[u8],
    sink: &mut K,
) -> End
    requires asked { MayBeAsked asked }
    requires short { length input.now ≤ SHEET_LIMIT }
    ensures { FinishesOwed (IsOwedFor audits_days asked input.now no_history) result
        (writing K.written K.faults sink.old sink.new) }
{
    match asked {
        AuditAsked::Day => audit_day(rt, alloc, input, sink),
        AuditAsked::Trial(number) => audit_trial(rt, alloc, input, number, sink),
    }
}

/// Audits the text of a day, with its file after it.
#[tactic(auto, using(crate::proofs::Audits::ended_early, crate::proofs::Audits::refused_behind, crate::proofs::Audits::judged))]
fn audit_day<R: Threads + Sync, K: Sink>(rt: &R, alloc: Global, input: &[u8], sink: &mut K) -> End
    requires { length input.now ≤ SHEET_LIMIT }
    ensures { FinishesOwed (IsOwedFor audits_days AuditAsked.Day input.now no_history) result
        (writing K.written K.faults sink.old sink.new) }
{
    let Some((text, file)) = text_and_file(input) else {
        return refuse(sink, ended(input.len()));
    };
    match read_day_file(alloc, file) {
        Ok(day) => judge_day(rt, alloc, text, day, sink),
        Err(stop) => refuse_input(sink, stop),
    }
}

/// Judges a text that is held to be the text of a day, and writes the verdict.
pub(crate) fn judge_day<R: Threads + Sync, K: Sink>(
    rt: &R,
    alloc: Global,
    text: &[u8],
    day: Day,
    sink: &mut K,
) -> End
    requires scripts { AreScripts (length day.roll.names) day.scripts }
    requires lots { length day.lots ≡ length day.roll.names }
    requires places { (6 ≤ day.places) × (day.places ≤ 9) }
    ensures { FinishesOwed (IsOwedLine AuditAsked.Day (IsDayVerdict day text.now)) result
        (writing K.written K.faults sink.old sink.new) }
{
    match judge(rt, alloc, text, day) {
        Ok(verdict) => finish(sink, End::Done, line_of(AuditAsked::Day, verdict).bytes()),
        Err(_) => End::NoMemory,
    }
}

/// Judges an input that is held to be the summary of a made day, and writes the verdict.
#[tactic(auto, using(crate::proofs::Audits::judged_trial))]
fn audit_trial<R: Threads + Sync, K: Sink>(
    rt: &R,
    alloc: Global,
    input: &[u8],
    number: u32,
    sink: &mut K,
) -> End
    requires number { (1 ≤ number) × (number ≤ MOST_TRIAL) }
    requires short { length input.now ≤ SHEET_LIMIT }
    ensures { FinishesOwed (IsOwedFor audits_days (AuditAsked.Trial number) input.now no_history) result
        (writing K.written K.faults sink.old sink.new) }
{
    match judge_trial(rt, alloc, input, number) {
        Ok(verdict) => finish(
            sink,
            End::Done,
            line_of(AuditAsked::Trial(number), verdict).bytes(),
        ),
        Err(_) => End::NoMemory,
    }
}
