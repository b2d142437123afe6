// The lines of a text that are orders.
ghost use Rattle.std.specs.Prelude.{◌≡◌, ◌≤◌, Some, None, OnOk, IfOk, IfErr, sum_by, map};
ghost use Rattle.plain_ballots.specs.declared.limits.TheConstants.{MOST_CANDIDATES};
ghost use Rattle.plain_ballots.specs.Ballots.{ballot_count, plain};
ghost use Rattle.preflib_text.specs.Ballots.{ballots};
ghost use Rattle.preflib_text.specs.Counting.{IsCounted};
ghost use Rattle.preflib_text.specs.Faults.{first_of};
ghost use Rattle.preflib_text.specs.Items.{order_of, count_of};
ghost use Rattle.preflib_text.specs.Reading.{AreAllRead};
ghost use Rattle.preflib_text.specs.Refusals.{order_faults};
ghost use Rattle.preflib_text.specs.Stops.{IsPrefStop};
ghost use Rattle.preflib_text.specs.Tallies.{tally};

use crate::PrefStop;
use crate::counted::Counted;
use crate::lines::Lines;
use crate::order::Order;
use ballot_marks::Treat;
use std::alloc::Global;

/// The ballots of the lines that are still to come, all of which are to be orders of so many candidates.
#[tactic(auto, using(crate::proofs::CountLemmas::same_faults))]
pub(crate) fn read_orders(
    alloc: Global,
    lines: &mut Lines<'_>,
    equal: Treat,
    candidates: u32,
) -> Result<Counted, PrefStop>
    requires { candidates ≤ MOST_CANDIDATES }
    ensures sound { OnOk result (first_of (order_faults equal candidates lines.old.rest) ≡ None) }
    ensures stop { IfErr result (IsPrefStop (first_of (order_faults equal candidates lines.old.rest))) }
    ensures ballots { IfOk result (λ read. ballots equal (map order_of lines.old.rest) ≡ Some (plain read.ballots.lines)) }
    ensures candidates { IfOk result (λ read. read.ballots.candidates ≡ candidates) }
    ensures tally { IfOk result (λ read. read.tally ≡ tally equal (map order_of lines.old.rest)) }
    ensures counted { IfOk result IsCounted }
    ensures total { IfOk result (λ read. ballot_count read.ballots.lines ≡ sum_by count_of lines.old.rest) }
    ensures end { OnOk result (AreAllRead lines.old lines.new) }
{
    let mut order = Order::new(alloc, candidates);
    let mut counted = Counted::new(alloc, candidates);
    while let Some(line) = lines.next() {
        let treated = order.ballot(alloc, &line, counted.room(), equal)?;
        counted.add(order.count(), treated)?;
    }
    Ok(counted)
}
