// What holds of words, whoever reads them.
ghost use Rattle.number_word.specs.Taken.{HaveOneNumber};

/// Words have one number at most.
pub fn words_have_one_number()
    ensures { HaveOneNumber }
{}
