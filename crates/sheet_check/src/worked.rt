// Checks worked by hand.
ghost use Rattle.sheet_check.specs.Worked.{WorkedChecks};

/// How long inputs may be, and which lines verdicts have. The call does nothing.
pub fn worked_checks()
    ensures { WorkedChecks }
{}
