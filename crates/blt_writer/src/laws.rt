// What holds of every bag of ballots and its text. Each law is the contract of a function with nothing
// to do.
ghost use Rattle.blt_writer.specs.Laws.{EveryBagHasAText, OneBagHasOneText, TextsAreRead};

/// Every bag of ballots has a text under a roll.
pub fn every_bag_has_a_text()
    ensures { EveryBagHasAText }
{}

/// A bag of ballots, in whatever order they are listed, has one text under a roll.
pub fn one_bag_has_one_text()
    ensures { OneBagHasOneText }
{}

/// The text of a bag of ballots is a ballot file of its roll and of these ballots.
pub fn texts_are_read()
    ensures { TextsAreRead }
{}
