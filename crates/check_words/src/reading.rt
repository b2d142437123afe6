// What the value of each option says.
ghost use Rattle.std.specs.Prelude.{◌≡◌, ℕ, List, IfOk};
ghost use Rattle.check_words.specs.Asks.{AreLots, ArePlaces, IsRule, IsOmega, SaysOmega};
ghost use Rattle.check_words.specs.Values.{words_in};
ghost use Rattle.check_words.specs.declared.count_rule.CountRule.{CountRule};
ghost use Rattle.check_words.specs.declared.places.Places.{Places};

use crate::{CountRule, Places};
use fixed_place::{MOST_OMEGA, Omega};
use meek_words::{LotWords, WordsStop, read_lots};
use number_word::read_number;
use std::alloc::Global;

pub(crate) fn lots(alloc: Global, value: Option<&str>) -> Result<LotWords, WordsStop>
    ensures accepted { IfOk result (AreLots (words_in value.entry)) }
    ensures refused { result ≡ Err WordsStop.BadWords
        → (lots : List ℕ) → ¬ (AreLots (words_in value.entry) lots) }
{
    match value {
        Some(word) => read_lots(alloc, word.as_bytes()),
        None => Err(WordsStop::BadWords),
    }
}

pub(crate) fn rule(value: Option<&str>) -> Result<CountRule, WordsStop>
    ensures accepted { IfOk result (IsRule (words_in value.entry)) }
    ensures refused { result ≡ Err WordsStop.BadWords
        → (rule : CountRule) → ¬ (IsRule (words_in value.entry) rule) }
{
    match value {
        None | Some("meek") => Ok(CountRule::Meek),
        Some("warren") => Ok(CountRule::Warren),
        _ => Err(WordsStop::BadWords),
    }
}

pub(crate) fn places(value: Option<&str>) -> Result<Places, WordsStop>
    ensures accepted { IfOk result (ArePlaces (words_in value.entry)) }
    ensures refused { result ≡ Err WordsStop.BadWords
        → (places : Places) → ¬ (ArePlaces (words_in value.entry) places) }
{
    match value {
        None | Some("9") => Ok(Places::Nine),
        Some("8") => Ok(Places::Eight),
        Some("7") => Ok(Places::Seven),
        Some("6") => Ok(Places::Six),
        _ => Err(WordsStop::BadWords),
    }
}

pub(crate) fn omega(alloc: Global, value: Option<&str>) -> Result<Omega, WordsStop>
    ensures accepted { IfOk result (IsOmega (words_in value.entry)) }
    ensures refused { result ≡ Err WordsStop.BadWords
        → (units : ℕ) → ¬ (IsOmega (words_in value.entry) units) }
{
    match value {
        Some(word) => omega_of(alloc, word),
        None => Ok(Omega::usual()),
    }
}

/// The omega whose units a word writes.
fn omega_of(alloc: Global, word: &str) -> Result<Omega, WordsStop>
    ensures accepted { IfOk result (SaysOmega word.now) }
    ensures refused { result ≡ Err WordsStop.BadWords → (units : ℕ) → ¬ (SaysOmega word.now units) }
{
    match read_number(alloc, word, MOST_OMEGA) {
        Ok(units) => match Omega::new(units) {
            Some(omega) => Ok(omega),
            None => unreachable!(),
        },
        Err(stop) => Err(stop),
    }
}
