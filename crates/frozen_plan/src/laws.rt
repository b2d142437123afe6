// One bag has one plan.
ghost use Rattle.frozen_plan.specs.OneBag.{OneBagHasOnePlan};

use ranking_trie::one_bag_has_one_form;

/// A bag of ballots has one plan. So a trie to which ballots were added and from which they were
/// removed again has the plan that it had before, and tries of the same ballots have one plan,
/// however these came into them. The call does nothing.
pub fn one_bag_has_one_plan()
    ensures { OneBagHasOnePlan }
{
    one_bag_has_one_form();
}
