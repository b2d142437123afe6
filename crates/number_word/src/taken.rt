// An option and its number.
ghost use Rattle.std.specs.Prelude.{map, string_bytes};
ghost use Rattle.tool_edge.specs.Words.{IsAsked};
ghost use Rattle.number_word.specs.Taken.{TakesNumber};

use crate::read_number;
use meek_words::WordsStop;
use std::alloc::Global;

/// The number, from 1 to the greatest, of words that are just an option and a numeral.
pub fn takes_number(
    alloc: Global,
    words: &[String],
    option: &str,
    greatest: u32,
) -> Result<u32, WordsStop>
    ensures { IsAsked (TakesNumber option.now greatest) (map string_bytes words.now) result }
{
    let [name, number] = words else {
        return Err(WordsStop::BadWords);
    };
    if name.as_str() != option {
        return Err(WordsStop::BadWords);
    }
    read_number(alloc, number.as_str(), greatest)
}
