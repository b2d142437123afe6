// One number, read from a word.
ghost use Rattle.std.specs.Prelude.{◌≡◌, ◌≤◌, ◌∷◌, [], ℕ, IfNone, IfOk, IfSome};
ghost use Rattle.meek_words.specs.Numerals.{IsNumeralUpTo};
ghost use Rattle.number_word.specs.Number.{Says};

use meek_words::{WordsStop, read_lots};
use std::alloc::Global;

/// The number that a word writes, from 1 to the greatest: 1 to 9 digits, leading zeros included, which are
/// read as a list of just one number.
pub fn read_number(alloc: Global, word: &str, greatest: u32) -> Result<u32, WordsStop>
    ensures taken { IfOk result (Says greatest word.now) }
    ensures refused { result ≡ Err WordsStop.BadWords → ¬ (IsNumeralUpTo greatest word.now) }
{
    match read_lots(alloc, word.as_bytes()) {
        Ok(numbers) => match only_one(numbers.items(), greatest) {
            Some(number) => Ok(number),
            None => Err(WordsStop::BadWords),
        },
        Err(stop) => Err(stop),
    }
}

/// The only number, where it is in range.
fn only_one(numbers: &[u32], greatest: u32) -> Option<u32>
    ensures only { IfSome result (λ n. numbers.now ≡ n ∷ []) }
    ensures range { IfSome result (λ n. (1 ≤ n) × (n ≤ greatest)) }
    ensures none { IfNone result ((n : ℕ) → numbers.now ≡ n ∷ [] → 1 ≤ n → n ≤ greatest → ⊥) }
{
    match numbers {
        [number] if *number >= 1 && *number <= greatest => Some(*number),
        _ => None,
    }
}
