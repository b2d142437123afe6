// A whole run.
ghost use Rattle.std.specs.Prelude.{◌≡◌, ◌≤◌, length, map, string_bytes};
ghost use Rattle.sheet_input.specs.declared.sheet_limit.TheConstants.{SHEET_LIMIT};
ghost use Rattle.tool_edge.specs.Finishing.{FinishesOwed};
ghost use Rattle.tool_edge.specs.Streams.{reading, writing};
ghost use Rattle.tool_edge.specs.Tool.{IsOwedFor, IsRun, no_history};
ghost use Rattle.blt_reader.specs.Election.{poll};
ghost use Rattle.ballot_look.specs.Owed.{IsLookOf, look_tool};

use ballot_findings::findings_of;
use blt_reader::{Election, read_blt};
use byte_edge::{Sink, Source};
use sheet_input::SHEET_LIMIT;
use std::alloc::Global;
use tool_edge::{
    End, files_are_not_refused, files_are_refused_once, finish, open, refuse_input, takes_nothing,
};

/// Says what the ballot file that the source gives holds, before anything is counted, and what of it wants a
/// look. No words are taken. All memory is taken before the first byte.
pub fn look<S: Source, K: Sink>(
    alloc: Global,
    words: &[String],
    source: &mut S,
    sink: &mut K,
) -> End
    ensures { IsRun look_tool (map string_bytes words.now)
        (reading S.left S.faults source.old source.new) (writing K.written K.faults sink.old sink.new)
        result no_history }
{
    files_are_not_refused();
    files_are_refused_once();
    let asked = takes_nothing(words);
    let opened = match open(alloc, asked, SHEET_LIMIT, source, sink) {
        Ok(opened) => opened,
        Err(end) => return end,
    };
    tell(alloc, opened.input.as_slice(), sink)
}

/// Says what was read of a whole input, or refuses it.
fn tell<K: Sink>(alloc: Global, input: &[u8], sink: &mut K) -> End
    requires { length input.now ≤ SHEET_LIMIT }
    ensures { FinishesOwed (IsOwedFor look_tool (tt {0}) input.now no_history) result
        (writing K.written K.faults sink.old sink.new) }
{
    match read_blt(alloc, input) {
        Ok(election) => tell_election(alloc, input, &election, sink),
        Err(stop) => refuse_input(sink, stop),
    }
}

/// Says what was read of the file of this election.
fn tell_election<K: Sink>(alloc: Global, input: &[u8], election: &Election, sink: &mut K) -> End
    requires { election.now.ballots.candidates ≡ length election.now.roll.names }
    ensures { FinishesOwed (IsLookOf input.now (poll election.now)) result
        (writing K.written K.faults sink.old sink.new) }
{
    match findings_of(alloc, input, &election.roll, &election.ballots) {
        Ok(text) => finish(sink, End::Done, text.bytes()),
        Err(_) => End::NoMemory,
    }
}
