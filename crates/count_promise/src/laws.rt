// What holds in every count, where its sheet promises it.
ghost use Rattle.count_promise.specs.Laws.{FourVotesForOne, NoLotMeansNoTie, OtherLotsSameSheet, PromisesHold, QuotaIsOfThoseHeard, SlackCoversAll};

use rule_laws::{coalitions_are_seated, lots_break_ties_alone, silent_ballots_change_nothing};
use sheet_reader::{sheets_are_read_back, written_values_are_read};

/// What the sheet of a count promises is so, whoever voted: groups of voters have the seats that
/// `proportional within` gives them, by the quota of the ballots that rank somebody who runs, and no
/// iteration leaves more over than that. The line that no lot decided anything is where there is no
/// tie, and then each other order of lots gives the same sheet. The call does nothing.
pub fn promises_hold()
    ensures seats { PromisesHold }
    ensures quota { QuotaIsOfThoseHeard }
    ensures slack { SlackCoversAll }
    ensures no_lot { NoLotMeansNoTie }
    ensures other_lots { OtherLotsSameSheet }
{
    coalitions_are_seated();
    silent_ballots_change_nothing();
    lots_break_ties_alone();
    sheets_are_read_back();
    written_values_are_read();
}

/// What is promised right at its limit, in figures. It rests on the clause of [`promises_hold`] alone.
pub fn promise_holds_in_figures()
    ensures { FourVotesForOne }
{
    promises_hold();
}
