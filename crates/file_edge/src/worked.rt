// Words of commands, worked by hand.
ghost use Rattle.file_edge.specs.Worked.{WorkedWords};

/// Which words name files, worked by hand. The call does nothing.
pub fn worked_words()
    ensures { WorkedWords }
{}
