// Iterations worked by hand.
ghost use Rattle.meek_rule.specs.Worked.{CappedKeep, Overfill, SurplusOfOmega, SurplusBelowOmega, SurplusNotFalling, SurplusFalling, TieWithinSurplus, ThreeBallots};
ghost use Rattle.meek_rule.specs.WorkedKeeps.{RoundedUpTwice, NoVotesSameKeep, OneWholeVoteIsNoCap, CappedFromBelowOne};
ghost use Rattle.meek_rule.specs.WorkedMarks.{OverfillByVotes, KeepsStayAtElection, TieAtTheSurplus, ElectedAreNotTied};
ghost use Rattle.meek_rule.specs.WorkedSteps.{OverfillByLots, BelowTheQuotaIsNoCap, OmegaAboveTheSurplus, OmegaOfTheSurplus, ElectedInAThirdIteration, TieByLots, TwoAtOnce};

/// Iterations worked by hand are the rule's.
pub fn worked_iterations()
    ensures capped_keep { CappedKeep }
    ensures overfill { Overfill }
    ensures surplus_of_omega { SurplusOfOmega }
    ensures surplus_below_omega { SurplusBelowOmega }
    ensures surplus_not_falling { SurplusNotFalling }
    ensures surplus_falling { SurplusFalling }
    ensures tie_within_surplus { TieWithinSurplus }
    ensures rounded_up_twice { RoundedUpTwice }
    ensures no_votes_same_keep { NoVotesSameKeep }
    ensures one_whole_vote_is_no_cap { OneWholeVoteIsNoCap }
    ensures capped_from_below_one { CappedFromBelowOne }
    ensures overfill_by_votes { OverfillByVotes }
    ensures keeps_stay_at_election { KeepsStayAtElection }
    ensures tie_at_the_surplus { TieAtTheSurplus }
    ensures elected_are_not_tied { ElectedAreNotTied }
    ensures overfill_by_lots { OverfillByLots }
    ensures below_the_quota_is_no_cap { BelowTheQuotaIsNoCap }
    ensures omega_above_the_surplus { OmegaAboveTheSurplus }
    ensures omega_of_the_surplus { OmegaOfTheSurplus }
    ensures elected_in_a_third_iteration { ElectedInAThirdIteration }
    ensures tie_by_lots { TieByLots }
    ensures two_at_once { TwoAtOnce }
    ensures three_ballots { ThreeBallots }
{}
