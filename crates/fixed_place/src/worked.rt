// Amounts worked by hand.
ghost use Rattle.fixed_place.specs.Worked.{Roundings, Texts};

/// Roundings and texts worked by hand are those defined.
pub fn worked_amounts()
    ensures roundings { Roundings }
    ensures texts { Texts }
{}
