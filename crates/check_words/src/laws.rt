// What holds of words, whoever reads them.
ghost use Rattle.check_words.specs.Laws.{AskOneThing, LotsAloneAskForTheUsual};

use meek_words::words_have_one_lot_list;

/// Words ask for one thing at most.
pub fn words_ask_one_thing()
    ensures { AskOneThing }
{
    words_have_one_lot_list();
}

/// Words that are a list of lots and nothing else ask for Meek's rule, nine places and the usual omega.
pub fn lots_alone_ask_for_the_usual()
    ensures { LotsAloneAskForTheUsual }
{}
