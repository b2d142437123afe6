// What holds of all that callers see. Each law is the contract of a function with nothing to do.
ghost use Rattle.shard_office.specs.Laws.{SightsGoOn, HistoriesGoOn, SightsShowHistories, HistoriesBeginAlike, ChangesStandAtTheirMarks, StrikesStandAtTheirMarks, FreezesStandAtTheirMarks, VersionsStay, VersionsAreOfHistories, VersionsStandInHistories, NobodyCallsLater, TheClerkHasSeenAll};

/// Who sees more sees the same history and more of it.
pub fn histories_go_on()
    ensures sights { SightsGoOn }
    ensures histories { HistoriesGoOn }
    ensures show { SightsShowHistories }
    ensures alike { HistoriesBeginAlike }
{}

/// A call is at the place of its mark in every history that goes on from what its caller has seen.
pub fn calls_stand_at_their_marks()
    ensures change { ChangesStandAtTheirMarks }
    ensures strike { StrikesStandAtTheirMarks }
    ensures freeze { FreezesStandAtTheirMarks }
{}

/// A version stays what it is: it is one of all that is seen later, and of the history in the end.
pub fn versions_stay()
    ensures stay { VersionsStay }
    ensures histories { VersionsAreOfHistories }
    ensures stand { VersionsStandInHistories }
{}

/// Nothing follows in the history what a clerk has seen that took in all passes before its freeze.
pub fn the_clerk_has_seen_all()
    ensures later { NobodyCallsLater }
    ensures all { TheClerkHasSeenAll }
{}
