//! Options whose value is one of a few words.
ghost use Rattle.std.specs.Prelude.{◌≡◌, ℕ, Option, IfSome, IfNone};
ghost use Rattle.import_words.specs.Settings.{IsForEmpty, IsForHead, IsForNames, IsLayout, IsCount, IsDigit, IsOutput, IsSeparator, IsSkipped, IsTreat, IsTreatment};
ghost use Rattle.import_words.specs.Values.{given_by, words_in};
ghost use Rattle.ballot_marks.specs.declared.choice.Treat.{Treat};
ghost use Rattle.ballot_marks.specs.declared.treatment.Treatment.{Treatment};
ghost use Rattle.import_words.specs.declared.layout.Layout.{Layout};
ghost use Rattle.import_words.specs.declared.output.Output.{Output};
ghost use Rattle.import_words.specs.declared.empty_rows.EmptyRows.{EmptyRows};
ghost use Rattle.import_words.specs.declared.separator.Separator.{Separator};
ghost use Rattle.import_words.specs.declared.head_names.HeadNames.{HeadNames};
ghost use Rattle.import_words.specs.declared.head_words.HeadWords.{HeadWords};

use crate::values::Values;
use crate::{EmptyRows, HeadNames, HeadWords, Layout, Output, Separator};
use ballot_marks::{Treat, Treatment};

pub(crate) fn layout(value: Option<&str>) -> Option<Layout>
    ensures said { IfSome result (λ layout. IsLayout (words_in value.entry) layout) }
    ensures none { IfNone result ((layout : Layout) → ¬ (IsLayout (words_in value.entry) layout)) }
{
    match value {
        Some("ranks") => Some(Layout::Ranks),
        Some("choices") => Some(Layout::Choices),
        Some("list") => Some(Layout::List),
        Some("preflib") => Some(Layout::Preflib),
        _ => None,
    }
}

pub(crate) fn output(value: Option<&str>) -> Option<Output>
    ensures said { IfSome result (λ output. IsOutput (words_in value.entry) output) }
    ensures none { IfNone result ((output : Output) → ¬ (IsOutput (words_in value.entry) output)) }
{
    match value {
        None | Some("blt") => Some(Output::Blt),
        Some("report") => Some(Output::Report),
        _ => None,
    }
}

pub(crate) fn empty_rows(value: Option<&str>) -> Option<EmptyRows>
    ensures said { IfSome result (λ empty. IsForEmpty (words_in value.entry) empty) }
    ensures none { IfNone result ((empty : EmptyRows) → ¬ (IsForEmpty (words_in value.entry) empty)) }
{
    match value {
        None | Some("refuse") => Some(EmptyRows::Refuse),
        Some("keep") => Some(EmptyRows::Keep),
        Some("drop") => Some(EmptyRows::LeaveOut),
        _ => None,
    }
}

/// The separator, if one is said.
pub(crate) fn separator(value: Option<&str>) -> Option<Option<Separator>>
    ensures said { IfSome result (λ separator. IsSeparator (words_in value.entry) separator) }
    ensures none { IfNone result
        ((separator : Option Separator) → ¬ (IsSeparator (words_in value.entry) separator)) }
{
    match value {
        None => Some(None),
        Some("comma") => Some(Some(Separator::Comma)),
        Some("semicolon") => Some(Some(Separator::Semicolon)),
        Some("tab") => Some(Some(Separator::Tab)),
        _ => None,
    }
}

pub(crate) fn head_names(value: Option<&str>) -> Option<HeadNames>
    ensures said { IfSome result (λ names. IsForNames (words_in value.entry) names) }
    ensures none { IfNone result ((names : HeadNames) → ¬ (IsForNames (words_in value.entry) names)) }
{
    match value {
        None | Some("whole") => Some(HeadNames::Whole),
        Some("bracketed") => Some(HeadNames::Bracketed),
        _ => None,
    }
}

/// What is said of the head.
pub(crate) fn head_words(value: Option<&str>) -> Option<HeadWords>
    ensures said { IfSome result (λ head. IsForHead (words_in value.entry) head) }
    ensures none { IfNone result ((head : HeadWords) → ¬ (IsForHead (words_in value.entry) head)) }
{
    let Some(word) = value else {
        return Some(HeadWords::Unsaid);
    };
    match word {
        "none" => Some(HeadWords::Absent),
        _ => match count(word.as_bytes()) {
            Some(records) => Some(HeadWords::Records(records)),
            None => None,
        },
    }
}

/// The number from 1 on that a single digit writes.
fn count(word: &[u8]) -> Option<u32>
    ensures count { IfSome result (λ n. IsCount word.now n) }
    ensures none { IfNone result ((n : ℕ) → ¬ (IsCount word.now n)) }
{
    match word {
        [digit] if *digit >= b'1' && *digit <= b'9' => Some(u32::from(*digit - b'0')),
        _ => None,
    }
}

fn treat(value: Option<&str>) -> Option<Treat>
    ensures said { IfSome result (λ treat. IsTreat (words_in value.entry) treat) }
    ensures none { IfNone result ((treat : Treat) → ¬ (IsTreat (words_in value.entry) treat)) }
{
    match value {
        None | Some("refuse") => Some(Treat::Refuse),
        Some("cut") => Some(Treat::Cut),
        Some("pass") => Some(Treat::Pass),
        _ => None,
    }
}

/// How many skipped ranks are closed, if they are not refused.
fn skipped(value: Option<&str>) -> Option<Option<u32>>
    ensures said { IfSome result (λ skipped. IsSkipped (words_in value.entry) skipped) }
    ensures none { IfNone result ((skipped : Option ℕ) → ¬ (IsSkipped (words_in value.entry) skipped)) }
{
    let Some(word) = value else {
        return Some(None);
    };
    match word {
        "refuse" => Some(None),
        "close" => Some(Some(Treatment::CLOSE)),
        _ => match digit(word.as_bytes()) {
            Some(most) => Some(Some(most)),
            None => None,
        },
    }
}

/// The number that a single digit writes.
fn digit(word: &[u8]) -> Option<u32>
    ensures digit { IfSome result (λ most. IsDigit word.now most) }
    ensures none { IfNone result ((most : ℕ) → ¬ (IsDigit word.now most)) }
{
    match word {
        [digit] if digit.is_ascii_digit() => Some(u32::from(*digit - b'0')),
        _ => None,
    }
}

pub(crate) fn treatment(values: &Values<'_>) -> Option<Treatment>
    ensures said { IfSome result (IsTreatment (given_by values.now)) }
    ensures none { IfNone result ((treatment : Treatment) → ¬ (IsTreatment (given_by values.now) treatment)) }
{
    Some(Treatment {
        skipped: skipped(values.skipped)?,
        equal: treat(values.equal)?,
        repeated: treat(values.repeated)?,
    })
}
