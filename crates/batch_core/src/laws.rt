// What the definitions amount to. Each law is the contract of a function with nothing to do.
ghost use Rattle.batch_core.specs.Laws.{GrowsByAnAnswer, AnswersEachCall, LeadsOn, StandsInTheBook, StruckInTheBook, OwnCallsFollow, StruckByACall, StruckOnce, EveryBatchIsNumbered, FewEnoughToCount, OneBatchIsReplaced};

/// Answering one call after another by a book gives a legal history, and the book shows what stands
/// after it and who is struck.
pub fn a_book_answers_a_history()
    ensures legal { GrowsByAnAnswer }
    ensures book { LeadsOn }
    ensures standing { StandsInTheBook }
    ensures struck { StruckInTheBook }
    ensures own_calls { OwnCallsFollow }
{}

/// A legal history has no other replies than the book's.
pub fn a_legal_history_has_the_books_replies()
    ensures { AnswersEachCall }
{}

/// The struck candidates of a history are listed once each.
pub fn struck_candidates_are_listed_once()
    ensures called { StruckByACall }
    ensures once { StruckOnce }
{}

/// Lawful calls leave batches of their numbers alone, few enough ballots for a count, and all others
/// as they were.
pub fn lawful_calls_leave_lawful_batches()
    ensures numbered { EveryBatchIsNumbered }
    ensures few { FewEnoughToCount }
    ensures replaced { OneBatchIsReplaced }
{}
