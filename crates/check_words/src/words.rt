// The words, read.
ghost use Rattle.std.specs.Prelude.{◌≡◌, IfOk, map, string_bytes};
ghost use Rattle.check_words.specs.Asks.{Asks};
ghost use Rattle.check_words.specs.declared.asked.Asked.{Asked};

use crate::values::values_of;
use crate::{Asked, words_ask_one_thing};
use meek_words::WordsStop;
use std::alloc::Global;

/// What the words after the tool's name ask for: options in any order, each with its value as the next word.
pub fn read_check_words(alloc: Global, words: &[String]) -> Result<Asked, WordsStop>
    ensures accepted { IfOk result (Asks (map string_bytes words.now)) }
    ensures one { (asked : Asked) → Asks (map string_bytes words.now) asked
        → IfOk result (λ read. read ≡ asked) }
    ensures refused { result ≡ Err WordsStop.BadWords
        → (asked : Asked) → ¬ (Asks (map string_bytes words.now) asked) }
{
    words_ask_one_thing();
    let Some(values) = values_of(words) else {
        return Err(WordsStop::BadWords);
    };
    Asked::read(alloc, values)
}
