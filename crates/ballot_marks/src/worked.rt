// Marks worked by hand.
ghost use Rattle.ballot_marks.specs.Worked.{EqualRanks, SkippedRanks, RepeatedCandidates};

/// Marks worked by hand have the rankings and the refusals that are defined.
pub fn worked_marks()
    ensures equal { EqualRanks }
    ensures skipped { SkippedRanks }
    ensures repeated { RepeatedCandidates }
{}
