// Words worked by hand.
ghost use Rattle.check_words.specs.Worked.{AcceptedWords, RefusedWords};

/// Words worked by hand ask for what is defined, or for nothing.
pub fn worked_words()
    ensures refused { RefusedWords }
    ensures accepted { AcceptedWords }
{}
