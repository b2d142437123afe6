//! Labels, names, numbers and lists of them, as words say them.
ghost use Rattle.std.specs.Prelude.{◌≡◌, ◌≤◌, ℕ, List, Option, IfOk, IfSome, IfNone, length, slice_index};
ghost use Rattle.meek_words.specs.Numerals.{IsNumeralUpTo, Word, number_of};
ghost use Rattle.import_words.specs.Asks.{AreNames, AreRanks, AreWithdrawn, IsSeats, IsTitle, IsWeight, IsRankList};
ghost use Rattle.candidate_roll.specs.Name.{IsName};
ghost use Rattle.import_words.specs.Labels.{AreLabels};
ghost use Rattle.import_words.specs.Values.{texts_in, words_in};
ghost use Rattle.plain_ballots.specs.declared.limits.TheConstants.{MOST_CANDIDATES};

use crate::{Label, Labels};
use candidate_roll::{MOST_TITLE_BYTES, Name, NameStop, Names};
use meek_words::{LotWords, WordsStop, read_lots};
use plain_ballots::MOST_CANDIDATES;
use std::alloc::Global;

/// As many labels at most as an election has candidates: of `--candidate`, and of `--ranks`.
pub(crate) const MOST: usize = MOST_CANDIDATES as usize;

/// The only number, if there is just one and it may be a number of seats.
fn only_one(numbers: &[u32]) -> Option<u32>
    ensures only { IfSome result (λ n. (length numbers.now ≡ 1) × (slice_index numbers.now 0 ≡ n)) }
    ensures range { IfSome result (λ n. (1 ≤ n) × (n ≤ MOST_CANDIDATES)) }
    ensures none { IfNone result (length numbers.now ≡ 1
        → 1 ≤ slice_index numbers.now 0 → slice_index numbers.now 0 ≤ MOST_CANDIDATES → ⊥) }
{
    if numbers.len() != 1 {
        return None;
    }
    let number = numbers[0];
    if number == 0 {
        return None;
    }
    if number > MOST_CANDIDATES {
        return None;
    }
    Some(number)
}

/// The number of seats that a word writes, which is read as a list of just one.
fn seats_of(alloc: Global, word: &str) -> Result<u32, WordsStop>
    ensures taken { IfOk result (λ n. IsNumeralUpTo MOST_CANDIDATES word.now × (n ≡ number_of word.now)) }
    ensures refused { result ≡ Err WordsStop.BadWords → ¬ (IsNumeralUpTo MOST_CANDIDATES word.now) }
{
    match read_lots(alloc, word.as_bytes()) {
        Ok(numbers) => match only_one(numbers.items()) {
            Some(number) => Ok(number),
            None => Err(WordsStop::BadWords),
        },
        Err(stop) => Err(stop),
    }
}

pub(crate) fn seats(alloc: Global, value: Option<&str>) -> Result<u32, WordsStop>
    ensures accepted { IfOk result (λ seats. IsSeats (words_in value.entry) seats) }
    ensures refused { result ≡ Err WordsStop.BadWords
        → (seats : ℕ) → ¬ (IsSeats (words_in value.entry) seats) }
{
    match value {
        Some(word) => seats_of(alloc, word),
        None => Err(WordsStop::BadWords),
    }
}

fn name<const MAX: usize>(alloc: Global, bytes: &[u8]) -> Result<Name<MAX>, WordsStop>
    ensures name { IfOk result (λ name. (name ≡ bytes.now) × IsName MAX bytes.now) }
    ensures refused { result ≡ Err WordsStop.BadWords → ¬ (IsName MAX bytes.now) }
{
    match Name::try_new(alloc, bytes) {
        Ok(name) => Ok(name),
        Err(NameStop::NoMemory) => Err(WordsStop::NoMemory),
        Err(_) => Err(WordsStop::BadWords),
    }
}

pub(crate) fn title(alloc: Global, value: Option<&str>) -> Result<Name<MOST_TITLE_BYTES>, WordsStop>
    ensures accepted { IfOk result (λ title. IsTitle (words_in value.entry) title) }
    ensures refused { result ≡ Err WordsStop.BadWords
        → (title : Word) → ¬ (IsTitle (words_in value.entry) title) }
{
    match value {
        Some(word) => name(alloc, word.as_bytes()),
        None => name(alloc, b""),
    }
}

pub(crate) fn withdrawn(alloc: Global, value: Option<&str>) -> Result<LotWords, WordsStop>
    ensures accepted { IfOk result (λ numbers. AreWithdrawn (words_in value.entry) numbers) }
    ensures refused { result ≡ Err WordsStop.BadWords
        → (numbers : List ℕ) → ¬ (AreWithdrawn (words_in value.entry) numbers) }
{
    match value {
        Some(word) => read_lots(alloc, word.as_bytes()),
        None => Ok(LotWords::new(alloc)),
    }
}

pub(crate) fn weight(alloc: Global, value: Option<&str>) -> Result<Option<Label>, WordsStop>
    ensures accepted { IfOk result (λ label. IsWeight (words_in value.entry) label) }
    ensures refused { result ≡ Err WordsStop.BadWords
        → (label : Option Word) → ¬ (IsWeight (words_in value.entry) label) }
{
    match value {
        Some(word) => match Label::try_new(alloc, word.as_bytes()) {
            Ok(label) => Ok(Some(label)),
            Err(stop) => Err(stop),
        },
        None => Ok(None),
    }
}

/// A label of each text.
pub(crate) fn labels(alloc: Global, texts: &[&str]) -> Result<Labels, WordsStop>
    ensures accepted { IfOk result (λ labels. AreLabels (texts_in texts.now) labels) }
    ensures refused { result ≡ Err WordsStop.BadWords
        → (labels : List Word) → ¬ (AreLabels (texts_in texts.now) labels) }
{
    let mut labels = Labels::new(alloc);
    for text in texts {
        let label = Label::try_new(alloc, text.as_bytes())?;
        labels.push(label)?;
    }
    Ok(labels)
}

/// A candidate's name of each text.
pub(crate) fn names(alloc: Global, texts: &[&str]) -> Result<Names, WordsStop>
    ensures accepted { IfOk result (λ names. AreNames (texts_in texts.now) names) }
    ensures refused { result ≡ Err WordsStop.BadWords
        → (names : List Word) → ¬ (AreNames (texts_in texts.now) names) }
{
    let mut names = Names::new(alloc);
    for text in texts {
        let name = name(alloc, text.as_bytes())?;
        if names.push(name).is_err() {
            return Err(WordsStop::NoMemory);
        }
    }
    Ok(names)
}

/// The labels of a word, with a comma between each two.
fn rank_list(alloc: Global, word: &[u8]) -> Result<Labels, WordsStop>
    ensures accepted { IfOk result (λ labels. IsRankList word.now labels) }
    ensures refused { result ≡ Err WordsStop.BadWords
        → (labels : List Word) → ¬ (IsRankList word.now labels) }
{
    let mut labels = Labels::new(alloc);
    for piece in word.split(|byte| *byte == b',') {
        if labels.len() == MOST {
            return Err(WordsStop::BadWords);
        }
        let label = Label::try_new(alloc, piece)?;
        labels.push(label)?;
    }
    Ok(labels)
}

pub(crate) fn ranks(alloc: Global, value: Option<&str>) -> Result<Labels, WordsStop>
    ensures accepted { IfOk result (λ labels. AreRanks (words_in value.entry) labels) }
    ensures refused { result ≡ Err WordsStop.BadWords
        → (labels : List Word) → ¬ (AreRanks (words_in value.entry) labels) }
{
    match value {
        Some(word) => rank_list(alloc, word.as_bytes()),
        None => Ok(Labels::new(alloc)),
    }
}
