// Promises worked by hand.
ghost use Rattle.count_promise.specs.Worked.{GreatSurplus, LastSeatByLot, LastSeatByVotes, LittleSurplus, NoIterations, SecondIsGreatest, TwoAreTied};
ghost use Rattle.count_promise.specs.Worked.{DefeatAndSeatByLot, FirstIsNotPromised, LongestSheet, WinnerBelowTheQuota};

/// What these sheets promise, to the byte, and how long one may be. The call does nothing.
pub fn worked_promises()
    ensures none { NoIterations }
    ensures tied { TwoAreTied }
    ensures seat { LastSeatByLot }
    ensures votes { LastSeatByVotes }
    ensures great { GreatSurplus }
    ensures little { LittleSurplus }
    ensures second { SecondIsGreatest }
    ensures not_promised { FirstIsNotPromised }
    ensures winner { WinnerBelowTheQuota }
    ensures both { DefeatAndSeatByLot }
    ensures longest { LongestSheet }
{}
