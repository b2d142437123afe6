// What holds of every text. Each law is the contract of a function with nothing to do.
ghost use Rattle.preflib_text.specs.Laws.{FaultOrBallots, NoOrderIsClosed, TalliesCountBallots, TreatmentsOnlyMend};
ghost use Rattle.preflib_text.specs.Written.{OrdersSayBallots, OrdersSayRankings, WrittenOrdersSayBallots};

/// A text has a fault, or it says ballots, and not both.
pub fn fault_or_ballots()
    ensures { FaultOrBallots }
{}

/// What is accepted where equal ranks are refused says the same ballots whatever becomes of equal ranks.
pub fn texts_are_only_mended()
    ensures { TreatmentsOnlyMend }
{
    ballot_marks::treatments_only_mend();
}

/// A tally counts all ballots that the orders of a text say, and those of them that rank nobody. An order has no
/// skipped ranks, so none is closed.
pub fn tallies_count_ballots()
    ensures counts { TalliesCountBallots }
    ensures none_closed { NoOrderIsClosed }
{}

/// A text whose orders are written from ballots that each rank somebody says just these, each ranking as often as its
/// count says: by its lines, and by its bytes. So a text and tables of the same rankings agree.
pub fn orders_say_rankings()
    ensures counted { OrdersSayBallots }
    ensures single { OrdersSayRankings }
    ensures texts { WrittenOrdersSayBallots }
{
    ballot_marks::rankings_of_marks();
}
