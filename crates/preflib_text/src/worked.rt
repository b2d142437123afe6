// Texts worked by hand.
ghost use Rattle.preflib_text.specs.Worked.{WorkedTexts};
ghost use Rattle.preflib_text.specs.WorkedHeads.{WorkedHeads};
ghost use Rattle.preflib_text.specs.WorkedOrders.{WorkedOrders};
ghost use Rattle.preflib_text.specs.WorkedTallies.{WorkedTallies};
ghost use Rattle.preflib_text.specs.WorkedWritten.{WorkedWritten};

use crate::orders_say_rankings;

/// Texts worked by hand have the ballots, the tallies and the faults that are defined.
pub fn worked_orders()
    ensures texts { WorkedTexts }
    ensures heads { WorkedHeads }
    ensures orders { WorkedOrders }
    ensures tallies { WorkedTallies }
{}

/// A text that is written from two rankings is one that a law speaks of, and says just these.
pub fn worked_rankings()
    ensures { WorkedWritten }
{
    orders_say_rankings();
}
