// A whole run.
ghost use Rattle.std.specs.Prelude.{map, string_bytes};
ghost use Rattle.tool_edge.specs.Streams.{reading, writing};
ghost use Rattle.tool_edge.specs.Tool.{IsRun, no_history};
ghost use Rattle.tool_edge.specs.Tools.{over_contests};
ghost use Rattle.warren_cli.specs.Owed.{OwesWarren};

use crate::counting::count;
use byte_edge::{Sink, Source};
use std::alloc::Global;
use tool_edge::{
    End, FILE_LIMIT, contests_are_not_refused, contests_are_refused_once, open, takes_lots,
    words_have_one_order,
};

/// Does what the words ask for: `--lots` and a list of lots ask for the sheet by Warren's rule of the
/// ballot file that the source gives. All memory is taken before the first byte.
pub fn warren<S: Source, K: Sink>(
    alloc: Global,
    words: &[String],
    source: &mut S,
    sink: &mut K,
) -> End
    ensures { IsRun (over_contests OwesWarren) (map string_bytes words.now)
        (reading S.left S.faults source.old source.new) (writing K.written K.faults sink.old sink.new) result no_history }
{
    words_have_one_order();
    contests_are_not_refused();
    contests_are_refused_once();
    let asked = takes_lots(alloc, words);
    let opened = match open(alloc, asked, FILE_LIMIT, source, sink) {
        Ok(opened) => opened,
        Err(end) => return end,
    };
    count(alloc, opened.asked.items(), opened.input.as_slice(), sink)
}
