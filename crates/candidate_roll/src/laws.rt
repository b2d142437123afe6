// What holds of all names and rolls.
ghost use Rattle.candidate_roll.specs.Laws.{NameHasOneRefusal, RollHasOneRefusal};

/// A name is refused for one reason at most, and at one place, and a roll for one reason. The call does
/// nothing.
pub fn refusals_are_unique()
    ensures name { NameHasOneRefusal }
    ensures roll { RollHasOneRefusal }
{}
