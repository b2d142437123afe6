// What holds of every count.
ghost use Rattle.meek_count.specs.Laws.{EachElectionHasOneCount, EachSituationHasOneEnd, OrderOfBallotsChangesNothing, RowsStayInRange};

/// By each rule every election has exactly one count, every situation exactly one end, and the order in which
/// the ballots are listed changes nothing.
pub fn counts_are_unique()
    ensures elections { EachElectionHasOneCount }
    ensures situations { EachSituationHasOneEnd }
    ensures orders { OrderOfBallotsChangesNothing }
{}

/// The iterations of an election's count have numbers that fit their types.
pub fn rows_stay_in_range()
    ensures { RowsStayInRange }
{}
