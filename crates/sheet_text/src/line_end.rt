// One line of a sheet, as it goes to a sink.
ghost use Rattle.std.specs.Prelude.{◌+◌, ◌<◌, ◌≤◌, [], ◌∷◌, ◌++◌, length, decimal};
ghost use Rattle.fixed_place.specs.Text.{text_of};
ghost use Rattle.sheet_text.specs.Writing.{Writes};

use byte_edge::{Failed, Sink, write_all};
use fixed_place::Amount;
use line_text::Line;

/// Hands the line with its line feed to the sink, as one piece.
pub(crate) fn end_line<K: Sink>(line: &mut Line, sink: &mut K) -> Result<(), Failed>
    requires { length line.old < 1400 }
    ensures { Writes K.written K.faults sink.old sink.new (line.old ∷ []) result }
{
    line.push_bytes(b"\n");
    write_all(sink, line.bytes())
}

/// A line of a word, which brings its space, and some bytes.
pub(crate) fn write_bytes_line<K: Sink>(
    line: &mut Line,
    word: &[u8],
    bytes: &[u8],
    sink: &mut K,
) -> Result<(), Failed>
    requires { length word.now + length bytes.now < 1400 }
    ensures { Writes K.written K.faults sink.old sink.new ((word.now ++ bytes.now) ∷ []) result }
{
    line.clear();
    line.push_bytes(word);
    line.push_bytes(bytes);
    end_line(line, sink)
}

/// A line of a word, which brings its space, and a whole number.
#[tactic(auto, using(crate::proofs::Rooms::rooms))]
pub(crate) fn write_count_line<K: Sink>(
    line: &mut Line,
    word: &[u8],
    n: u64,
    sink: &mut K,
) -> Result<(), Failed>
    requires { length word.now < 100 }
    ensures { Writes K.written K.faults sink.old sink.new ((word.now ++ decimal n) ∷ []) result }
{
    line.clear();
    line.push_bytes(word);
    line.push_count(n);
    end_line(line, sink)
}

/// A line of a word, which brings its space, and an amount of votes.
#[tactic(auto, using(crate::proofs::Rooms::rooms))]
pub(crate) fn write_amount_line<const P: usize, K: Sink>(
    line: &mut Line,
    word: &[u8],
    a: Amount<P>,
    sink: &mut K,
) -> Result<(), Failed>
    requires { length word.now < 100 }
    ensures { Writes K.written K.faults sink.old sink.new
        ((word.now ++ text_of P a.entry) ∷ []) result }
{
    let _units = a.units();
    line.clear();
    line.push_bytes(word);
    line.push_amount(a);
    end_line(line, sink)
}
