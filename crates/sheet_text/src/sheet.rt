// The whole sheet of a count.
ghost use Rattle.std.specs.Prelude.{OnOk, OnErr};
ghost use Rattle.byte_edge.specs.Faults.{CountsFault};
ghost use Rattle.fixed_place.specs.Rounding.{scale};
ghost use Rattle.meek_count.specs.Progress.{HasJustBegun, IsSameElection};
ghost use Rattle.sheet_text.specs.Sheet.{AppendsSheet, AppendsFrontOfSheet, HasEnded, StandsWhereItStopped};

use crate::head::write_head_by;
use crate::outcome::write_result_by;
use crate::row_text::write_row_by;
use byte_edge::{Failed, Sink};
use line_text::Line;
use meek_count::{Count, Turn};
use meek_rule::Spread;

/// Runs a count that was just begun to its end, and writes its sheet as it goes, each line with its line
/// feed as one piece. The sheet is that of the rule of the count's spread. After a failure the count is where the writing stopped.
pub fn write_sheet<const P: usize, D: Spread<P> + Drop, K: Sink>(
    count: &mut Count<'_, P, D>,
    sink: &mut K,
) -> Result<(), Failed>
    requires { HasJustBegun (scale P) count.old }
    ensures all { OnOk result (AppendsSheet D.rule P count.old (K.written sink.old) (K.written sink.new)) }
    ensures ended { OnOk result (HasEnded count.new) }
    ensures front { OnErr result
        (AppendsFrontOfSheet D.rule P count.old (K.written sink.old) (K.written sink.new)) }
    ensures stands { OnErr result
        (StandsWhereItStopped D.rule P count.old count.new (K.written sink.old) (K.written sink.new)) }
    ensures same { IsSameElection count.old count.new }
    ensures faults { CountsFault (K.faults sink.old) (K.faults sink.new) result }
{
    let mut line = Line::new();
    let _candidates = count.roll().candidates();
    write_head_by(&mut line, count.roll(), count.ballots(), sink)?;
    'rows: while let Turn::Iterated = count.next() {
        write_row_by(&mut line, count.row(), sink)?;
    }
    write_result_by(&mut line, count.roll(), count.states(), sink)
}
