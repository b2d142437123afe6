// Decisions worked by hand.
ghost use Rattle.sheet_words.specs.Worked.{ATie, ATransfer, GreaterVotesFirst, MoreWinnersThanSeats, SeveralAtOnce};

/// What sheets decided, in sentences. The call does nothing.
pub fn worked_decisions()
    ensures tie { ATie }
    ensures winners { MoreWinnersThanSeats }
    ensures transfer { ATransfer }
    ensures votes { GreaterVotesFirst }
    ensures several { SeveralAtOnce }
{}
