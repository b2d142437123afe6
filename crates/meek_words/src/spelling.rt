//! The test that words are options with their values and plain words, before anybody reads a value.
ghost use Rattle.std.specs.Prelude.{◌≡◌, ◌≢◌, ◌↔◌, List, ◌++◌, IsTrue, IfNone, IfSome, map, string_bytes};
ghost use Rattle.meek_words.specs.Numerals.{Word};
ghost use Rattle.meek_words.specs.Parts.{AreSpelled, HasValue, IsValue, Part, option_of, words_of};
ghost use Rattle.meek_words.specs.Spellings.{IsSpelled};

use crate::option_name::OptionName;
use crate::stood::Stood;

/// What a word is by its spelling.
#[derive(Clone, Copy)]
enum Spelling<'a> {
    /// An option with its value.
    OneWord(OptionName, &'a str),
    /// An option whose value is the next word.
    FirstOfTwo(OptionName),
    /// No option.
    Plain,
}

fn spelling_of(word: &str) -> Spelling<'_>
    ensures { IsSpelled word.entry.now result }
{
    let (flag, value) = match word.split_once('=') {
        Some((flag, value)) => (flag, Some(value)),
        None => (word, None),
    };
    match (OptionName::from_flag(flag), value) {
        (Some(name), Some(value)) => Spelling::OneWord(name, value),
        (Some(name), None) => Spelling::FirstOfTwo(name),
        (None, _) => Spelling::Plain,
    }
}

/// Whether a word may be an option's value, or stand for itself.
fn is_value(word: &str) -> bool
    ensures { IsTrue result ↔ IsValue word.now }
{
    match word.as_bytes().first() {
        Some(byte) => *byte != b'-',
        None => false,
    }
}

/// The option of the first part, if it has one, and the words after that part.
fn first_part(words: &[String]) -> Option<(Option<OptionName>, &[String])>
    ensures cut { IfSome result (λ cut. (part : Part) × HasValue part × (option_of part ≡ cut.0)
        × (map string_bytes words.now ≡ words_of part ++ map string_bytes cut.1.now)) }
    ensures none { IfNone result ((part : Part) (rest : List Word) → HasValue part
        → map string_bytes words.now ≢ words_of part ++ rest) }
{
    let (word, rest) = words.split_first()?;
    let (name, value, rest) = match spelling_of(word) {
        Spelling::OneWord(name, value) => (Some(name), value, rest),
        Spelling::FirstOfTwo(name) => {
            let (value, rest) = rest.split_first()?;
            (Some(name), value.as_str(), rest)
        }
        Spelling::Plain => (None, word.as_str(), rest),
    };
    if is_value(value) {
        Some((name, rest))
    } else {
        None
    }
}

/// Whether the words are options, each with a value and none twice, and at most one plain word.
pub(crate) fn is_spelled(words: &[String]) -> bool
    ensures { IsTrue result ↔ AreSpelled (map string_bytes words.now) }
{
    let mut stood = Stood::nothing();
    let mut rest = words;
    while !rest.is_empty() {
        let Some((option, behind)) = first_part(rest) else {
            return false;
        };
        if !stood.is_first(option) {
            return false;
        }
        rest = behind;
    }
    true
}
