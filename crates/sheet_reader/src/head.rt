// How a sheet begins.
ghost use Rattle.std.specs.Prelude.{◌≡◌, ◌≢◌, ◌<◌, ◌≤◌, ◌^◌, ◌∷◌, ◌++◌, ℕ, List, codes, decimal, MatchOption, MatchResult};
ghost use Rattle.plain_ballots.specs.declared.limits.TheConstants.{MOST_BALLOTS};
ghost use Rattle.candidate_roll.specs.declared.limits.TheConstants.{MOST_TITLE_BYTES};
ghost use Rattle.candidate_roll.specs.Name.{IsName};
ghost use Rattle.candidate_roll.specs.Roll.{IsFew};
ghost use Rattle.sheet_reader.specs.Parts.{NoHead, count_lines, head_lines};
ghost use Rattle.sheet_reader.specs.Refusal.{Stops};

use crate::SheetStop;
use crate::lines::Lines;
use crate::number::read_count;
use candidate_roll::{MOST_TITLE_BYTES, Name, NameStop};
use plain_ballots::{MOST_BALLOTS, MOST_CANDIDATES};
use std::alloc::Global;

/// What is in a sheet before its iterations.
#[derive(Drop)]
pub(crate) struct Head {
    pub title: Name<MOST_TITLE_BYTES>,
    pub seats: u32,
    pub candidates: u32,
    pub ballots: u32,
}

/// The title and the numbers of a sheet.
pub(crate) fn read_head(alloc: Global, lines: &mut Lines<'_>) -> Result<Head, SheetStop>
    ensures { MatchResult result
        (λ head. IsName MOST_TITLE_BYTES head.title × IsFew head.seats × IsFew head.candidates × (head.ballots ≤ MOST_BALLOTS)
        × (lines.old ≡ head_lines head.title head.seats head.candidates head.ballots ++ lines.new))
        (λ stop. Stops stop (NoHead lines.old)) }
{
    let title = match read_title(alloc, lines) {
        Ok(title) => title,
        Err(stop) => return Err(stop),
    };
    match read_counts(lines) {
        Some((seats, candidates, ballots)) => Ok(Head {
            title,
            seats,
            candidates,
            ballots,
        }),
        None => Err(SheetStop::Malformed),
    }
}

/// The title of a sheet.
fn read_title(alloc: Global, lines: &mut Lines<'_>) -> Result<Name<MOST_TITLE_BYTES>, SheetStop>
    ensures { MatchResult result
        (λ title. IsName MOST_TITLE_BYTES title × (lines.old ≡ (codes "title " ++ title) ∷ lines.new))
        (λ stop. Stops stop ((title : List ℕ) (rest : List (List ℕ)) → IsName MOST_TITLE_BYTES title
        → lines.old ≢ (codes "title " ++ title) ∷ rest)) }
{
    let Some(title) = lines.next_after(b"title ") else {
        return Err(SheetStop::Malformed);
    };
    read_name(alloc, title)
}

/// A name or a title of these bytes.
pub(crate) fn read_name<const MAX: usize>(
    alloc: Global,
    bytes: &[u8],
) -> Result<Name<MAX>, SheetStop>
    ensures { MatchResult result
        (λ name. (name ≡ bytes.now) × IsName MAX name)
        (λ stop. Stops stop (¬ (IsName MAX bytes.now))) }
{
    match Name::try_new(alloc, bytes) {
        Ok(name) => Ok(name),
        Err(NameStop::NoMemory) => Err(SheetStop::NoMemory),
        Err(_) => Err(SheetStop::Malformed),
    }
}

/// The numbers of seats, candidates and ballots.
fn read_counts(lines: &mut Lines<'_>) -> Option<(u32, u32, u32)>
    ensures { MatchOption result
        ((seats candidates ballots : ℕ) (rest : List (List ℕ)) → IsFew seats → IsFew candidates → ballots ≤ MOST_BALLOTS
        → lines.old ≢ count_lines seats candidates ballots ++ rest)
        (λ n. IsFew n.0 × IsFew n.1 × (n.2 ≤ MOST_BALLOTS) × (lines.old ≡ count_lines n.0 n.1 n.2 ++ lines.new)) }
{
    let Some(seats) = read_number(lines, b"seats ", 1, MOST_CANDIDATES) else {
        return None;
    };
    let Some(candidates) = read_number(lines, b"candidates ", 1, MOST_CANDIDATES) else {
        return None;
    };
    let Some(ballots) = read_number(lines, b"ballots ", 0, MOST_BALLOTS) else {
        return None;
    };
    Some((seats, candidates, ballots))
}

/// A line of a word, which brings its space, and a number within these bounds.
fn read_number(lines: &mut Lines<'_>, word: &[u8], least: u32, most: u32) -> Option<u32>
    ensures { MatchOption result
        ((n : ℕ) (rest : List (List ℕ)) → least ≤ n → n ≤ most → lines.old ≢ (word.now ++ decimal n) ∷ rest)
        (λ n. (least ≤ n) × (n ≤ most) × (lines.old ≡ (word.now ++ decimal n) ∷ lines.new)) }
{
    let Some(text) = lines.next_after(word) else {
        return None;
    };
    let Some(n) = read_count(text) else {
        return None;
    };
    if n < least as u64 {
        return None;
    }
    if n > most as u64 {
        return None;
    }
    Some(n as u32)
}
