// A day worked by hand.
ghost use Rattle.day_ballots.specs.Worked.{LongestInput, WorkedAnswers, WorkedFalseLines, WorkedFreezes, WorkedLineWords};

/// Where this day's text has a freeze, which lines of other texts are false for the day, what is answered where there
/// is nothing to write, how long an input may be, and which words ask for a line. The call does nothing.
pub fn worked_freezes()
    ensures freezes { WorkedFreezes }
    ensures false_lines { WorkedFalseLines }
    ensures answers { WorkedAnswers }
    ensures longest { LongestInput }
    ensures words { WorkedLineWords }
{}
