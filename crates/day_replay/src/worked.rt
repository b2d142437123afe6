// Calls worked by hand.
ghost use Rattle.day_replay.specs.Worked.{WorkedCallers, WorkedLines, WorkedOrders};
ghost use Rattle.day_replay.specs.WorkedVerdicts.{WorkedVerdicts};

use batch_core::a_legal_history_has_the_books_replies;

/// The lines of these calls, who made them, which of two histories is the nearest to a text, and which verdicts small
/// texts have where just two texts are lawful. The call does nothing.
pub fn worked_calls()
    ensures lines { WorkedLines }
    ensures callers { WorkedCallers }
    ensures orders { WorkedOrders }
    ensures verdicts { WorkedVerdicts }
{
    a_legal_history_has_the_books_replies();
}
