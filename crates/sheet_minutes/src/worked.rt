// Texts of sheets, worked by hand.
ghost use Rattle.sheet_minutes.specs.Worked.{ATie, FiveRounds, NoControls, NoRounds, WorkedLabels};

/// The texts of some sheets and names, from the rules of the format alone. The call does nothing.
pub fn worked_minutes()
    ensures tie { ATie }
    ensures rounds { FiveRounds }
    ensures none { NoRounds }
    ensures labels { WorkedLabels }
    ensures controls { NoControls }
{}
