// What holds of all ranks.
ghost use Rattle.plain_ballots.specs.Laws.{HasOneRefusal};

/// Ranks are refused for one reason at most, and at one place. The call does nothing.
pub fn ranks_have_one_refusal()
    ensures { HasOneRefusal }
{}
