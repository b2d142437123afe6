// Audits worked by hand.
ghost use Rattle.day_audit.specs.Worked.{WorkedEnds, WorkedLengths, WorkedVerdictLines, WorkedWords};

/// Which lines verdicts have, where small texts end, how long an input may be, and which words ask for an audit. The call
/// does nothing.
pub fn worked_audits()
    ensures verdict_lines { WorkedVerdictLines }
    ensures ends { WorkedEnds }
    ensures lengths { WorkedLengths }
    ensures words { WorkedWords }
{}
