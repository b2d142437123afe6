// The words that ask for a draw.
ghost use Rattle.std.specs.Prelude.{◌≡◌, ◌↔◌, ℕ, All, IsTrue, IfOk, map};
ghost use Rattle.std.specs.String.{string_bytes};
ghost use Rattle.lot_draw.specs.Words.{AreBlanks, Asked, IsPrinted, IsSeed, Says, TakesDraw};

use meek_words::WordsStop;
use number_word::read_number;
use plain_ballots::MOST_CANDIDATES;
use std::alloc::Global;

const LONGEST_SEED: usize = 1000;

const BLANK: u8 = 32;

const LAST_PRINTED: u8 = 126;

/// The seed and the number of candidates of words that are just `--seed` and `--candidates`, in either
/// order, each with its value after it.
pub fn takes_draw(alloc: Global, words: &[String]) -> Result<(&str, u32), WordsStop>
    ensures taken { IfOk result (λ asked. TakesDraw (map string_bytes words.entry.now)
        (record { seed = asked.0.now; candidates = asked.1 })) }
    ensures refused { result ≡ Err WordsStop.BadWords
        → (asked : Asked) → ¬ (TakesDraw (map string_bytes words.entry.now) asked) }
{
    let [first, value, second, other] = words else {
        return Err(WordsStop::BadWords);
    };
    if are_words(first, second, "--seed", "--candidates") {
        return asked(alloc, value.as_str(), other.as_str());
    }
    if are_words(first, second, "--candidates", "--seed") {
        return asked(alloc, other.as_str(), value.as_str());
    }
    Err(WordsStop::BadWords)
}

/// Whether the first word is `one`, and the second `other`.
fn are_words(first: &String, second: &String, one: &str, other: &str) -> bool
    ensures { IsTrue result ↔ ((string_bytes first.now ≡ one.now) × (string_bytes second.now ≡ other.now)) }
{
    first.as_str() == one && second.as_str() == other
}

fn asked<'a>(alloc: Global, seed: &'a str, number: &str) -> Result<(&'a str, u32), WordsStop>
    ensures seed { IfOk result (λ asked. asked.0.now ≡ seed.entry.now) }
    ensures taken { IfOk result (λ asked. Says seed.entry.now number.entry.now asked.1) }
    ensures refused { result ≡ Err WordsStop.BadWords
        → (n : ℕ) → ¬ (Says seed.entry.now number.entry.now n) }
{
    if !is_seed(seed) {
        return Err(WordsStop::BadWords);
    }
    match read_number(alloc, number, MOST_CANDIDATES) {
        Ok(candidates) => Ok((seed, candidates)),
        Err(stop) => Err(stop),
    }
}

/// Whether a word is a seed: of printed characters of ASCII, with one blank between each two words.
fn is_seed(word: &str) -> bool
    ensures { IsTrue result ↔ IsSeed word.now }
{
    let bytes = word.as_bytes();
    let len = bytes.len();
    if len == 0 || len > LONGEST_SEED {
        return false;
    }
    if bytes[0] == BLANK || bytes[len - 1] == BLANK {
        return false;
    }
    is_printed(bytes) && are_apart(bytes)
}

/// Whether all bytes are printed characters of ASCII.
fn is_printed(bytes: &[u8]) -> bool
    ensures { IsTrue result ↔ All IsPrinted bytes.now }
{
    for byte in bytes {
        if *byte < BLANK || *byte > LAST_PRINTED {
            return false;
        }
    }
    true
}

/// Whether no two blanks are together.
fn are_apart(bytes: &[u8]) -> bool
    ensures { IsTrue result ↔ ((at : ℕ) → ¬ AreBlanks bytes.now at) }
{
    for at in 1..bytes.len() {
        if bytes[at - 1] == BLANK && bytes[at] == BLANK {
            return false;
        }
    }
    true
}
