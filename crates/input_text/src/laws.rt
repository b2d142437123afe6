// What the cutting of a text amounts to. Each law is the contract of a function with nothing to do.
ghost use Rattle.input_text.specs.Spelling.{CutsToTokens};
ghost use Rattle.input_text.specs.Written.{NumbersAreRead, DigitsAreRead, WordsAreRead, StringsAreRead, PartsFollow, NothingIsRead, WholeIsRead};

/// A text that is written from items, each with a separator after it, is cut into just these items.
pub fn written_items_are_read()
    ensures numbers { NumbersAreRead }
    ensures digits { DigitsAreRead }
    ensures words { WordsAreRead }
    ensures strings { StringsAreRead }
    ensures parts { PartsFollow }
    ensures nothing { NothingIsRead }
    ensures whole { WholeIsRead }
{}

/// A text that is cut up to its end is its tokens at their places, with nothing but separators and
/// comments between them.
pub fn cuts_to_tokens()
    ensures { CutsToTokens }
{}
