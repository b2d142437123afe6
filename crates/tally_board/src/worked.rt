// Boards worked by hand.
ghost use Rattle.tally_board.specs.Worked.{Bounds, Fronts, OfTheCandidates, Totals, TwoBoards};

/// Moves, totals and boards worked by hand are the rule's.
pub fn worked_boards()
    ensures totals { Totals }
    ensures bounds { Bounds }
    ensures of_the_candidates { OfTheCandidates }
    ensures fronts { Fronts }
    ensures two_boards { TwoBoards }
{}
