// Packed lines worked by hand.
ghost use Rattle.packed_ballots.specs.Worked.{FiveMore, ThreeLines};

/// Packed lines worked by hand are those defined. The call does nothing.
pub fn worked_lines()
    ensures stand { ThreeLines }
    ensures taken { FiveMore }
{}
