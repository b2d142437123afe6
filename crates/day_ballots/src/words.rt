// The words that ask for the ballots of a freeze.
ghost use Rattle.std.specs.Prelude.{map};
ghost use Rattle.std.specs.String.{string_bytes};
ghost use Rattle.tool_edge.specs.Words.{IsAsked};
ghost use Rattle.day_ballots.specs.Words.{TakesLine};

use meek_words::WordsStop;
use number_word::takes_number;
use std::alloc::Global;

/// The greatest number of a line that can be asked for: nine digits.
pub const LAST_LINE: u32 = 999_999_999;

/// The line of words that are just `--at` and its number.
pub fn takes_line(alloc: Global, words: &[String]) -> Result<u32, WordsStop>
    ensures { IsAsked TakesLine (map string_bytes words.now) result }
{
    takes_number(alloc, words, "--at", LAST_LINE)
}
