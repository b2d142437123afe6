// A count run to its end, whose rows are counted and not kept.
ghost use Rattle.std.specs.Prelude.{◌≤◌, length};
ghost use Rattle.fixed_place.specs.Rounding.{scale};
ghost use Rattle.meek_count.specs.Progress.{HasJustBegun};
ghost use Rattle.day_sheets.specs.CountedOut.{IsCountedOut};

use crate::turns::Turns;
use lent_spread::Lent;
use meek_count::{Count, Turn};
use meek_rule::Spread;

/// Counts to the end, and returns the number of rounds and iterations. With at most 12 candidates there are fewer
/// than 2^64 iterations.
pub(crate) fn count_out<D: Spread<9>>(count: &mut Count<'_, 9, Lent<'_, D>>) -> Turns
    requires begun { HasJustBegun (scale 9) count.old }
    requires few { length count.old.situation.states ≤ 12 }
    ensures { IsCountedOut 9 count.old result count.new.situation.states }
{
    let mut turns = Turns {
        rounds: 0,
        iterations: 0,
    };
    'rows: while let Turn::Iterated = count.next() {
        turns.rounds = count.row().round;
        turns.iterations += 1;
    }
    turns
}
