// Ballot files worked by hand.
ghost use Rattle.blt_reader.specs.Worked.{SampleFile, MarkedFile, Refusals};

/// Ballot files worked by hand say, or are refused for, what is defined.
pub fn worked_files()
    ensures sample { SampleFile }
    ensures marked { MarkedFile }
    ensures refusals { Refusals }
{}
