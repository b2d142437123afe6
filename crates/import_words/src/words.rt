// The words, read.
ghost use Rattle.std.specs.Prelude.{◌≡◌, IfOk, map, string_bytes};
ghost use Rattle.import_words.specs.Asks.{Asks};
ghost use Rattle.import_words.specs.declared.asked.Asked.{Asked};

use crate::pairs::{are_for, pairs, values};
use crate::{Asked, words_ask_one_thing};
use meek_words::WordsStop;
use std::alloc::Global;

/// What the words after the tool's name ask for: options, each with its value as the next word.
pub fn read_import_words(alloc: Global, words: &[String]) -> Result<Asked, WordsStop>
    ensures accepted { IfOk result (Asks (map string_bytes words.now)) }
    ensures one { (asked : Asked) → Asks (map string_bytes words.now) asked
        → IfOk result (λ read. read ≡ asked) }
    ensures refused { result ≡ Err WordsStop.BadWords
        → (asked : Asked) → ¬ (Asks (map string_bytes words.now) asked) }
{
    words_ask_one_thing();
    let pairs = pairs(alloc, words)?;
    let values = values(alloc, pairs.as_slice())?;
    let asked = Asked::read(alloc, &values)?;
    if !are_for(asked.layout, pairs.as_slice()) {
        return Err(WordsStop::BadWords);
    }
    Ok(asked)
}
