// What holds of every sheet.
ghost use Rattle.sheet_text.specs.Laws.{EachElectionHasOneSheet, OrderOfBallotsLeavesTheSheet};

/// By each rule every election has exactly one sheet, in whatever order its ballots are listed.
pub fn sheets_are_unique()
    ensures elections { EachElectionHasOneSheet }
    ensures orders { OrderOfBallotsLeavesTheSheet }
{}
