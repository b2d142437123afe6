// What holds for every order of calls. Each law is the contract of a function with nothing to do.
ghost use Rattle.call_register.specs.Laws.{EveryOrderIsLegal, EveryOrderIsLawful, EveryFittingOrderIsWoven, EveryHistoryIsWoven, PartsHaveTheirMarks, NoPartOutside, PartsAreFronts, StruckByAMark, StrikesGoOn, MarksGoOn, EntriesAheadChangeNothing, LongerSightsBeginAlike, HistoriesBeginAlike, LeftBehindTheMarks, ChangeIsTheLast, FreezeIsTheLast, StrikeIsTheLast, AsManyAsMarks, ChangeAtItsMark, FreezeAtItsMark, StrikeAtItsMark, OwnCallIsTheLast, OthersLeaveOwnCalls, OthersFollow, NeverFewerCalls};

/// Shards that are legal by themselves are legal together in every order, and every legal history is
/// woven of its own marks and parts.
pub fn every_order_is_legal()
    ensures legal { EveryOrderIsLegal }
    ensures lawful { EveryOrderIsLawful }
    ensures woven { EveryFittingOrderIsWoven }
    ensures back { EveryHistoryIsWoven }
    ensures fit { PartsHaveTheirMarks }
    ensures outside { NoPartOutside }
    ensures parts { PartsAreFronts }
    ensures struck { StruckByAMark }
{}

/// Who sees more of the marks and entries sees the same history and more of it.
pub fn longer_sights_begin_alike()
    ensures goes_on { MarksGoOn }
    ensures struck { StrikesGoOn }
    ensures ahead { EntriesAheadChangeNothing }
    ensures begins { LongerSightsBeginAlike }
    ensures histories { HistoriesBeginAlike }
    ensures left { LeftBehindTheMarks }
{}

/// Each call is at the place of its mark.
pub fn each_call_stands_at_its_mark()
    ensures length { AsManyAsMarks }
    ensures change { ChangeAtItsMark }
    ensures freeze { FreezeAtItsMark }
    ensures strike { StrikeAtItsMark }
{}

/// A caller's calls are added one by one to its own, and the calls of others leave them as they are.
pub fn own_calls_stay()
    ensures change { ChangeIsTheLast }
    ensures freeze { FreezeIsTheLast }
    ensures strike { StrikeIsTheLast }
    ensures own { OwnCallIsTheLast }
    ensures stay { OthersLeaveOwnCalls }
    ensures others { OthersFollow }
    ensures fewer { NeverFewerCalls }
{}
