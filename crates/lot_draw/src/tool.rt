// The tool that draws lots.
ghost use Rattle.std.specs.Prelude.{◌≡◌, ◌≤◌, [], map};
ghost use Rattle.std.specs.String.{string_bytes};
ghost use Rattle.plain_ballots.specs.declared.limits.TheConstants.{MOST_CANDIDATES};
ghost use Rattle.tool_edge.specs.Finishing.{FinishesOwed};
ghost use Rattle.tool_edge.specs.Streams.{no_source, writing};
ghost use Rattle.tool_edge.specs.Tool.{IsOwedFor, IsRun, no_history};
ghost use Rattle.lot_draw.specs.Owed.{draws};

use crate::{draw_lots, push_drawn, takes_draw};
use byte_edge::Sink;
use line_text::Line;
use std::alloc::Global;
use tool_edge::{End, finish, refuse_words};

/// Draws the lots that the words ask for, and writes their line. Nothing is read.
pub fn draw_in_public<K: Sink>(alloc: Global, words: &[String], sink: &mut K) -> End
    ensures { IsRun draws (map string_bytes words.now) no_source
        (writing K.written K.faults sink.old sink.new) result no_history }
{
    match takes_draw(alloc, words) {
        Ok((seed, candidates)) => write_draw(alloc, seed.as_bytes(), candidates, sink),
        Err(stop) => refuse_words(sink, stop),
    }
}

fn write_draw<K: Sink>(alloc: Global, seed: &[u8], candidates: u32, sink: &mut K) -> End
    requires { candidates ≤ MOST_CANDIDATES }
    ensures { FinishesOwed
        (IsOwedFor draws (record { seed = seed.now; candidates = candidates }) [] no_history)
        result (writing K.written K.faults sink.old sink.new) }
{
    match draw_lots(alloc, seed, candidates) {
        Ok(order) => {
            let mut line = Line::new();
            push_drawn(&mut line, order.as_slice());
            finish(sink, End::Done, line.bytes())
        }
        Err(_) => End::NoMemory,
    }
}
