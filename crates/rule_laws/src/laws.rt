// What voters expect of every count, by either rule.
ghost use Rattle.rule_laws.specs.Seats.{SeatsAreFilled, NobodyHopesAtTheEnd, DecidedStaysDecided, WithdrawnAreOut};
ghost use Rattle.rule_laws.specs.NoTies.{LotsBreakTiesAlone};
ghost use Rattle.rule_laws.specs.Renaming.{NumbersMeanNothing};
ghost use Rattle.rule_laws.specs.Strikes.{StrikingChangesNothing};
ghost use Rattle.rule_laws.specs.Absence.{WithdrawnMayBeLeftOut, WhatIsLeftIsAnElection};
ghost use Rattle.rule_laws.specs.WorkedAbsence.{BenIsLeftOut};
ghost use Rattle.rule_laws.specs.Majority.{FirstShareWins, MajorityWins};
ghost use Rattle.rule_laws.specs.Coalition.{SolidMajorityWins, CoalitionsAreSeated, SharesAreSeated, ShareGetsASeat};
ghost use Rattle.rule_laws.specs.Orderly.{OrderlyCountsAreProportional, QuietCountsAreProportional};
ghost use Rattle.rule_laws.specs.LaterPreferences.{EarlierAreSafe};
ghost use Rattle.rule_laws.specs.LaterLots.{LaterLotsNeverHurt, WithLaterLotsItIsAnElection};
ghost use Rattle.rule_laws.specs.OneSeat.{FewSeatsRulesAgree, OneSeatRowsAreRunoffs, OneSeatPlacesAgree};
ghost use Rattle.rule_laws.specs.Exhausted.{NothingVanishes};
ghost use Rattle.rule_laws.specs.Plurality.{FirstPreferencesStay, PluralityHolds, UnrankedAreNotElected};
ghost use Rattle.rule_laws.specs.Silent.{FirstVotesAreThoseHeard, HeardCoalitionsAreSeated, SilentBallotsChangeNothing};
ghost use Rattle.rule_laws.specs.KeepRises.{KeepValuesRiseByAUnit};
ghost use Rattle.rule_laws.specs.Unheard.{AllRankDeeLast, AllRankDeeLastAtSixPlaces, UnnamedDeeIsElected};
ghost use Rattle.rule_laws.specs.Paradoxes.{CidIsElectedFromSecond, CidIsDefeatedFromFirst, AnnIsElectedByNine, CidIsElectedByEleven};
ghost use Rattle.rule_laws.specs.Paradoxes.{CidHasTheOneSeat, CidHasNoneOfTwoSeats, AnnIsElectedWithoutDee, BenIsElectedWithDee};

/// A count fills its seats, or elects all who were not withdrawn where those are fewer. Whoever stands as elected or
/// defeated in an iteration stands so in each later one and at the end, where nobody is hopeful. Who was withdrawn
/// ends so, and nobody else does.
pub fn seats_are_filled()
    ensures filled { SeatsAreFilled }
    ensures none_hopeful { NobodyHopesAtTheEnd }
    ensures decided { DecidedStaysDecided }
    ensures withdrawn { WithdrawnAreOut }
{}

/// Where no iteration of a count has a tie, for defeat or for a last seat, each other order of lots gives the same
/// count, row for row.
pub fn lots_break_ties_alone()
    ensures { LotsBreakTiesAlone }
{}

/// Who is elected with some lots is elected too where it comes later in them, the rest in its order: the count is the
/// same, row for row, and with that order it is the only one.
pub fn later_lots_never_hurt()
    ensures same { LaterLotsNeverHurt }
    ensures election { WithLaterLotsItIsAnElection }
{}

/// With other numbers on ballots, roll and lots the count is the same under these numbers.
pub fn numbers_mean_nothing()
    ensures { NumbersMeanNothing }
{}

/// A candidate who was withdrawn may as well be struck from all ballots: the count is the same, row for row.
pub fn strikes_change_nothing()
    ensures { StrikingChangesNothing }
{}

/// The withdrawn may be left out of ballots, roll and lots, and the others numbered anew in their order: the count has
/// the same rows and the same last states but for the places of the withdrawn. Where somebody runs, an election is
/// left. One is worked by hand.
pub fn withdrawn_may_be_left_out()
    ensures same { WithdrawnMayBeLeftOut }
    ensures election { WhatIsLeftIsAnElection }
    ensures by_hand { BenIsLeftOut }
{}

/// Who is first, of those not withdrawn, on more than a share of the ballots is elected, where there is a share for
/// each seat and one besides; with one seat that is more than half. And with one seat, of candidates whom more than
/// half of the voters rank above all others one is elected.
pub fn majorities_win()
    ensures share { FirstShareWins }
    ensures first { MajorityWins }
    ensures solid { SolidMajorityWins }
{}

/// Voters who rank the same candidates above all others get as many seats for these as they have quotas, and as much
/// besides as the iterations leave over: where nobody is defeated while a surplus is left the count is proportional.
pub fn coalitions_are_seated()
    ensures quotas { CoalitionsAreSeated }
    ensures shares { SharesAreSeated }
    ensures orderly { OrderlyCountsAreProportional }
    ensures hundredths { QuietCountsAreProportional }
    ensures one { ShareGetsASeat }
{}

/// Later-no-harm and later-no-help: what a ballot says after a candidate can neither hurt nor help that candidate. Two
/// elections that differ in nothing else end alike for each candidate whom the ballot ranks before they differ.
pub fn later_preferences_change_nothing_earlier()
    ensures { EarlierAreSafe }
{}

/// With one seat a count is the alternative vote (instant-runoff voting): each row is a runoff with one vote for each
/// ballot that ranks somebody hopeful, and ties are of equal votes. So neither the rule, nor the number of places, nor
/// omega makes a difference to who is elected. Both rules have the same rows, with two seats too.
pub fn one_seat_is_the_alternative_vote()
    ensures rules { FewSeatsRulesAgree }
    ensures rows { OneSeatRowsAreRunoffs }
    ensures places { OneSeatPlacesAgree }
{}

/// No vote is lost by roundings: in each iteration the votes of the candidates, and what the ballots have left after
/// their last preferences, the exhausted votes, are together one vote for each ballot, to the unit.
pub fn no_vote_vanishes()
    ensures { NothingVanishes }
{}

/// In each iteration a hopeful candidate has at least its first preferences. So the plurality criterion holds but for
/// the surplus: who has more first preferences than another has mentions, by more than the surplus at its own defeat,
/// is elected where the other is.
pub fn first_preferences_count()
    ensures hopeful { FirstPreferencesStay }
    ensures plurality { PluralityHolds }
{}

/// Who is ranked on no ballot is elected by no iteration: it has no vote, and the quota is at least a unit. It may be
/// elected as one of those who remain at the end.
pub fn unranked_are_not_elected()
    ensures { UnrankedAreNotElected }
{}

/// Ballots that rank nobody who runs, blank ones among them, may be added or left out: the count is the same, row for row.
/// The votes of the first iteration are together one for each other ballot, and quotas of these are enough for voters who
/// rank the same candidates above all others.
pub fn silent_ballots_change_nothing()
    ensures same { SilentBallotsChangeNothing }
    ensures total { FirstVotesAreThoseHeard }
    ensures quotas { HeardCoalitionsAreSeated }
{}

/// A keep value, or a price, may rise by rounding, but by at most one unit in an iteration where its candidate has at
/// least the quota, and at least a vote less a unit.
pub fn keep_values_rise_by_a_unit()
    ensures { KeepValuesRiseByAUnit }
{}

/// What the rule does not promise: in two counts worked by hand a candidate whom all voters rank last, and who never
/// has a vote, is elected. One has eleven voters and one decimal place, the other is one that this office would count.
pub fn unanimity_fails()
    ensures by_hand { AllRankDeeLast }
    ensures at_six_places { AllRankDeeLastAtSixPlaces }
{}

/// Plurality is not promised where a surplus is left over: in a count at six places, by either rule, a candidate whom all
/// ballots name, and who is first on 299,999, is defeated, and one whom no ballot names is elected.
pub fn plurality_fails()
    ensures { UnnamedDeeIsElected }
{}

/// Monotonicity is not promised: with one seat, by either rule and with any lots, two of 17 voters raise the winner from
/// second to first, and the winner is defeated.
pub fn monotonicity_fails()
    ensures from_second { CidIsElectedFromSecond }
    ensures from_first { CidIsDefeatedFromFirst }
{}

/// Participation is not promised: with one seat, by either rule and with any lots, nine voters elect a candidate whom two
/// more prefer to the one that is elected where these vote too. The two do better by staying at home.
pub fn participation_fails()
    ensures by_nine { AnnIsElectedByNine }
    ensures by_eleven { CidIsElectedByEleven }
{}

/// House monotonicity is not promised: by either rule and with any lots, 13 ballots elect a candidate where there is one
/// seat, and the same ballots defeat this candidate where there are two.
pub fn house_monotonicity_fails()
    ensures one_seat { CidHasTheOneSeat }
    ensures two_seats { CidHasNoneOfTwoSeats }
{}

/// Independence of clones is not promised with several seats: by either rule and with any lots, a candidate comes in whom
/// each voter ranks directly after one of the two elected, and costs the other one the seat.
pub fn clone_independence_fails()
    ensures without_clone { AnnIsElectedWithoutDee }
    ensures with_clone { BenIsElectedWithDee }
{}
