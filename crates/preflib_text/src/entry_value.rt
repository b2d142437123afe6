// What a line of metadata may say.
ghost use Rattle.std.specs.Prelude.{◌≡◌, ◌==◌, ◌||◌, nat_lt, false};
ghost use Rattle.std.specs.List.{list_any};
ghost use Rattle.std.specs.Option.{option_map, option_map_or};
ghost use Rattle.preflib_text.specs.Known.{seen_key};
ghost use Rattle.preflib_text.specs.Metadata.{value_fault, name_fault, text_fault, is_few, is_candidate, unless};
ghost use Rattle.preflib_text.specs.Texts.{number};

use crate::entry::Key;
use crate::numeral::number;
use crate::{PrefAsked, PrefKind};
use candidate_roll::{MOST_NAME_BYTES, MOST_TITLE_BYTES};
use plain_ballots::MOST_CANDIDATES;

/// Why a line can't say this, where so many candidates are known.
pub(crate) fn value_fault(
    asked: &PrefAsked<'_>,
    candidates: Option<u32>,
    key: Key,
    value: &[u8],
) -> Option<PrefKind>
    ensures { result ≡ value_fault asked.now candidates (seen_key key) value.now }
{
    match key {
        Key::Alternatives => unless(PrefKind::BadHeader, says_few(value)),
        Key::Voters => unless(PrefKind::BadNumber, number(value).is_some()),
        Key::Title => match asked.title {
            Some(_) => None,
            None => text_fault(MOST_TITLE_BYTES, value),
        },
        Key::Name(n) => match is_candidate(candidates, n) {
            true => name_fault(value),
            false => Some(PrefKind::NoSuchCandidate),
        },
        Key::Other => None,
    }
}

fn unless(kind: PrefKind, holds: bool) -> Option<PrefKind>
    ensures { result ≡ unless kind holds }
{
    if holds { None } else { Some(kind) }
}

/// Whether this is a number of candidates that may be.
#[tactic(auto, using(crate::proofs::KeyLemmas::few_capped))]
fn says_few(value: &[u8]) -> bool
    ensures { result ≡ option_map_or is_few (number value.now) false }
{
    match number(value) {
        Some(n) => n > 0 && n <= MOST_CANDIDATES,
        None => false,
    }
}

/// Whether a number is a candidate's, where so many are known.
fn is_candidate(candidates: Option<u32>, n: Option<u32>) -> bool
    ensures { result ≡ is_candidate candidates n }
{
    match (candidates, n) {
        (Some(candidates), Some(n)) => n > 0 && n <= candidates,
        _ => false,
    }
}

fn name_fault(name: &[u8]) -> Option<PrefKind>
    ensures { result ≡ name_fault name.now }
{
    match name {
        [] => Some(PrefKind::NameExpected),
        _ => text_fault(MOST_NAME_BYTES, name),
    }
}

fn text_fault(most: usize, text: &[u8]) -> Option<PrefKind>
    ensures { result ≡ text_fault most text.now }
{
    if has_bad_byte(text) {
        Some(PrefKind::BadName)
    } else if text.len() > most {
        Some(PrefKind::TooLongName)
    } else {
        None
    }
}

fn has_bad_byte(text: &[u8]) -> bool
    ensures { result ≡ list_any (λ b. nat_lt b 32 || b == 34) text.now }
{
    text.iter().any(|b| *b < b' ' || *b == b'"')
}
