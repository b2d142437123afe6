//! What holds of words, whoever reads them.
ghost use Rattle.meek_words.specs.Forms.{HaveOneCommand};
ghost use Rattle.meek_words.specs.Numerals.{HaveOneLotList};

/// Words have at most one command.
pub fn words_have_one_command()
    ensures { HaveOneCommand }
{}

/// A word is at most one list of lots.
pub fn words_have_one_lot_list()
    ensures { HaveOneLotList }
{}
