// Warren's count, and its sheet.
ghost use Rattle.std.specs.Prelude.{OnOk, OnErr};
ghost use Rattle.byte_edge.specs.Faults.{CountsFault};
ghost use Rattle.fixed_place.specs.Rounding.{scale};
ghost use Rattle.meek_count.specs.Progress.{HasJustBegun, IsSameElection};
ghost use Rattle.meek_rule.specs.Rule.{Warren};
ghost use Rattle.sheet_text.specs.Sheet.{AppendsSheet, AppendsFrontOfSheet, HasEnded};

use crate::WarrenSpread;
use byte_edge::{Failed, Sink};
use meek_count::Count;
use sheet_text::write_sheet;

/// A count by Warren's rule at nine decimal places: [`Count`] over a [`WarrenSpread`]. Its prices
/// stand where another count's keep values stand.
pub type WarrenCount<'e> = Count<'e, 9, WarrenSpread>;

/// Runs a count that was just begun to its end, and writes its sheet as it goes. A price is printed
/// where another sheet has a keep value.
pub fn write_warren<K: Sink>(count: &mut WarrenCount<'_>, sink: &mut K) -> Result<(), Failed>
    requires { HasJustBegun (scale 9) count.old }
    ensures all { OnOk result (AppendsSheet Warren 9 count.old (K.written sink.old) (K.written sink.new)) }
    ensures ended { OnOk result (HasEnded count.new) }
    ensures front { OnErr result
        (AppendsFrontOfSheet Warren 9 count.old (K.written sink.old) (K.written sink.new)) }
    ensures same { IsSameElection count.old count.new }
    ensures faults { CountsFault (K.faults sink.old) (K.faults sink.new) result }
{
    write_sheet(count, sink)
}
