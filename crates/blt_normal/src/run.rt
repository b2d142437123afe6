// A whole run.
ghost use Rattle.std.specs.Prelude.{map, string_bytes};
ghost use Rattle.tool_edge.specs.Streams.{reading, writing};
ghost use Rattle.tool_edge.specs.Tool.{IsRun, no_history};
ghost use Rattle.blt_normal.specs.Owed.{normal_tool};

use crate::rewriting::rewrite;
use byte_edge::{Sink, Source};
use std::alloc::Global;
use std::thread::Threads;
use tool_edge::{
    End, FILE_LIMIT, files_are_not_refused, files_are_refused_once, open, takes_nothing,
};

/// Writes the canonical text of the ballot file that the source gives. No words are taken. All memory
/// is taken before the first byte. The lines are put in order in threads, where there are any to be had.
pub fn normal<R: Threads + Sync, S: Source, K: Sink>(
    rt: &R,
    alloc: Global,
    words: &[String],
    source: &mut S,
    sink: &mut K,
) -> End
    ensures { IsRun normal_tool (map string_bytes words.now)
        (reading S.left S.faults source.old source.new) (writing K.written K.faults sink.old sink.new) result no_history }
{
    files_are_not_refused();
    files_are_refused_once();
    let asked = takes_nothing(words);
    let opened = match open(alloc, asked, FILE_LIMIT, source, sink) {
        Ok(opened) => opened,
        Err(end) => return end,
    };
    rewrite(rt, alloc, opened.input.as_slice(), sink)
}
