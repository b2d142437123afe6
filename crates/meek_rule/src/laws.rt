// Laws that follow from the definitions.
ghost use Rattle.meek_rule.specs.Laws.{VotesStayWithinBallots, NothingKeptNothingGiven, NotRankedNothingGiven, WeightFallsByWhatIsKept, GivenAtItsPlace, WinnersAreUnique};

/// What follows from the definitions of a distribution and of the winners.
pub fn distribution_laws()
    ensures within { VotesStayWithinBallots }
    ensures nothing { NothingKeptNothingGiven }
    ensures not_ranked { NotRankedNothingGiven }
    ensures weight { WeightFallsByWhatIsKept }
    ensures place { GivenAtItsPlace }
    ensures winners { WinnersAreUnique }
{}
