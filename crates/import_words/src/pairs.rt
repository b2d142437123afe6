//! The words as pairs of an option and its value.
ghost use Rattle.std.specs.Prelude.{◌≡◌, ◌≢◌, ◌≤◌, ◌∷◌, List, [], IfOk, IfNone, IfSome, OnErr, IsTrue, ◌↔◌, length, map, string_bytes};
ghost use Rattle.meek_words.specs.Numerals.{Word};
ghost use Rattle.import_words.specs.Asks.{AreFor, Says};
ghost use Rattle.import_words.specs.declared.asked.Asked.{Asked};
ghost use Rattle.import_words.specs.Options.{flag_of};
ghost use Rattle.import_words.specs.Pairs.{ArePairs, Said, columns_of, given_of, values_of, words_of};
ghost use Rattle.import_words.specs.Values.{AreSingle, given_by, pairs_in, said_in, texts_in, words_in};

use crate::Layout;
use crate::import_option::ImportOption;
use crate::pair::Pair;
use crate::single_values::SingleValues;
use crate::values::Values;
use meek_words::WordsStop;
use std::alloc::Global;

/// The first pair, and the words after it.
fn first_pair(words: &[String]) -> Option<(Pair<'_>, &[String])>
    ensures cut { IfSome result (λ cut. ((said_in cut.0).value ≢ [])
        × (map string_bytes words.now
        ≡ flag_of cut.0.option ∷ cut.0.value.now ∷ map string_bytes cut.1.now)) }
    ensures none { IfNone result ((said : Said) (rest : List Word) → said.value ≢ []
        → map string_bytes words.now ≢ flag_of said.option ∷ said.value ∷ rest) }
{
    let (flag, behind) = words.split_first()?;
    let (value, rest) = behind.split_first()?;
    let option = ImportOption::from_flag(flag.as_str())?;
    let value = value.as_str();
    if value.is_empty() {
        return None;
    }
    Some((Pair { option, value }, rest))
}

/// The pairs that the words are.
pub(crate) fn pairs<'a>(alloc: Global, words: &'a [String]) -> Result<Vec<Pair<'a>>, WordsStop>
    ensures are { IfOk result (λ pairs. ArePairs (map string_bytes words.entry.now) (pairs_in pairs.items)) }
    ensures refused { result ≡ Err WordsStop.BadWords
        → (pairs : List Said) → ¬ (ArePairs (map string_bytes words.entry.now) pairs) }
{
    let mut pairs = Vec::new(alloc);
    let mut rest = words;
    while !rest.is_empty() {
        let Some((pair, behind)) = first_pair(rest) else {
            return Err(WordsStop::BadWords);
        };
        if pairs.push(pair).is_err() {
            return Err(WordsStop::NoMemory);
        }
        rest = behind;
    }
    Ok(pairs)
}

/// Whether each option is one of the layout.
pub(crate) fn are_for(layout: Layout, pairs: &[Pair<'_>]) -> bool
    ensures { IsTrue result ↔ AreFor layout (pairs_in pairs.now) }
{
    for pair in pairs {
        if !pair.option.is_of(layout) {
            return false;
        }
    }
    true
}

/// The value of an option, if it has one, where it has one at most.
fn at_most_one<'a>(pairs: &[Pair<'a>], option: ImportOption) -> Option<Option<&'a str>>
    ensures one { IfSome result (λ value. words_in value ≡ values_of option (pairs_in pairs.now)) }
    ensures more { IfNone result (2 ≤ length (values_of option (pairs_in pairs.now))) }
{
    let mut found = None;
    for pair in pairs {
        if option.is_same(pair.option) {
            if found.is_some() {
                return None;
            }
            found = Some(pair.value);
        }
    }
    Some(found)
}

/// The values of an option, in order.
fn each<'a>(
    alloc: Global,
    pairs: &[Pair<'a>],
    option: ImportOption,
) -> Result<Vec<&'a str>, WordsStop>
    ensures values { IfOk result (λ values. texts_in values.items ≡ values_of option (pairs_in pairs.now)) }
    ensures memory { OnErr result (result ≡ Err WordsStop.NoMemory) }
{
    let mut values = Vec::new(alloc);
    for pair in pairs {
        if option.is_same(pair.option) {
            if values.push(pair.value).is_err() {
                return Err(WordsStop::NoMemory);
            }
        }
    }
    Ok(values)
}

/// The values of the options that say one column, in the order of the words.
fn columns<'a>(alloc: Global, pairs: &[Pair<'a>]) -> Result<Vec<&'a str>, WordsStop>
    ensures values { IfOk result (λ values. texts_in values.items ≡ columns_of (pairs_in pairs.now)) }
    ensures memory { OnErr result (result ≡ Err WordsStop.NoMemory) }
{
    let mut values = Vec::new(alloc);
    for pair in pairs {
        if pair.option.is_column() {
            if values.push(pair.value).is_err() {
                return Err(WordsStop::NoMemory);
            }
        }
    }
    Ok(values)
}

/// The values of the options that have one at most, where none has more.
fn single_values<'a>(pairs: &[Pair<'a>]) -> Option<SingleValues<'a>>
    ensures single { IfSome result (λ values. AreSingle values (pairs_in pairs.now)) }
    ensures none { IfNone result ((asked : Asked) → ¬ (Says (given_of (pairs_in pairs.now)) asked)) }
{
    let layout = at_most_one(pairs, ImportOption::Layout)?;
    let seats = at_most_one(pairs, ImportOption::Seats)?;
    let title = at_most_one(pairs, ImportOption::Title)?;
    let withdrawn = at_most_one(pairs, ImportOption::Withdrawn)?;
    let output = at_most_one(pairs, ImportOption::As)?;
    let equal = at_most_one(pairs, ImportOption::Equal)?;
    let skipped = at_most_one(pairs, ImportOption::Skipped)?;
    let empty = at_most_one(pairs, ImportOption::Empty)?;
    let separator = at_most_one(pairs, ImportOption::Separator)?;
    let weight = at_most_one(pairs, ImportOption::Weight)?;
    let names = at_most_one(pairs, ImportOption::Names)?;
    let ranks = at_most_one(pairs, ImportOption::Ranks)?;
    let repeated = at_most_one(pairs, ImportOption::Repeated)?;
    let head = at_most_one(pairs, ImportOption::Head)?;
    let chosen = at_most_one(pairs, ImportOption::Columns)?;
    Some(SingleValues {
        layout,
        seats,
        title,
        withdrawn,
        output,
        equal,
        skipped,
        empty,
        separator,
        weight,
        names,
        ranks,
        repeated,
        head,
        chosen,
    })
}

/// The values of each option, where none has more of them than it may have.
pub(crate) fn values<'a>(alloc: Global, pairs: &[Pair<'a>]) -> Result<Values<'a>, WordsStop>
    ensures given { IfOk result (λ values. given_by values ≡ given_of (pairs_in pairs.now)) }
    ensures refused { result ≡ Err WordsStop.BadWords → (asked : Asked)
        → ¬ (Says (given_of (pairs_in pairs.now)) asked) }
{
    let Some(single) = single_values(pairs) else {
        return Err(WordsStop::BadWords);
    };
    Ok(Values {
        layout: single.layout,
        seats: single.seats,
        title: single.title,
        withdrawn: single.withdrawn,
        output: single.output,
        equal: single.equal,
        skipped: single.skipped,
        empty: single.empty,
        separator: single.separator,
        weight: single.weight,
        ignored: each(alloc, pairs, ImportOption::Ignore)?,
        columns: columns(alloc, pairs)?,
        chosen: single.chosen,
        blanks: each(alloc, pairs, ImportOption::Blank)?,
        names: single.names,
        ranks: single.ranks,
        candidates: each(alloc, pairs, ImportOption::Candidate)?,
        overs: each(alloc, pairs, ImportOption::Over)?,
        repeated: single.repeated,
        head: single.head,
    })
}
