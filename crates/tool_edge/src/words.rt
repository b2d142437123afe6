// The words of tools.
ghost use Rattle.std.specs.Prelude.{◌≡◌, List, ℕ, IfOk, map};
ghost use Rattle.std.specs.String.{string_bytes};
ghost use Rattle.meek_words.specs.Numerals.{IsLotList};
ghost use Rattle.tool_edge.specs.Words.{IsAsked, TakesLots, TakesNothing};

use meek_words::{LotWords, WordsStop, read_lots};
use std::alloc::Global;

/// The numbers of one word that is a list of lots.
fn lots_of(alloc: Global, word: &String) -> Result<LotWords, WordsStop>
    ensures accepted { IfOk result (IsLotList (string_bytes word.now)) }
    ensures one { (lots : List ℕ) → IsLotList (string_bytes word.now) lots
        → IfOk result (λ read. read ≡ lots) }
    ensures refused { result ≡ Err WordsStop.BadWords
        → (lots : List ℕ) → ¬ (IsLotList (string_bytes word.now) lots) }
{
    read_lots(alloc, word.as_bytes())
}

/// The lots of words that are just `--lots` and a list of lots.
pub fn takes_lots(alloc: Global, words: &[String]) -> Result<LotWords, WordsStop>
    ensures { IsAsked TakesLots (map string_bytes words.now) result }
{
    let [option, list] = words else {
        return Err(WordsStop::BadWords);
    };
    if option.as_str() != "--lots" {
        return Err(WordsStop::BadWords);
    }
    lots_of(alloc, list)
}

/// Refuses every word.
pub fn takes_nothing(words: &[String]) -> Result<(), WordsStop>
    ensures { IsAsked TakesNothing (map string_bytes words.now) result }
{
    if words.is_empty() {
        Ok(())
    } else {
        Err(WordsStop::BadWords)
    }
}
