// How a sheet ends: what became of each candidate.
ghost use Rattle.std.specs.Prelude.{◌≡◌, ◌≢◌, ◌+◌, ◌<◌, ◌≤◌, [], ◌∷◌, ◌++◌, ℕ, List, All, codes, length, MatchBool, MatchOption, MatchResult};
ghost use Rattle.plain_ballots.specs.declared.limits.TheConstants.{MOST_CANDIDATES};
ghost use Rattle.candidate_roll.specs.declared.limits.TheConstants.{MOST_NAME_BYTES};
ghost use Rattle.candidate_roll.specs.Name.{IsName};
ghost use Rattle.candidate_roll.specs.declared.state.State.{State};
ghost use Rattle.meek_rule.specs.Places.{each_place};
ghost use Rattle.sheet_text.specs.Lines.{outcome_line};
ghost use Rattle.sheet_reader.specs.Parts.{NoEnd, end_lines, outcome_of};
ghost use Rattle.sheet_reader.specs.Refusal.{Stops};

use crate::SheetStop;
use crate::cut::cut;
use crate::head::read_name;
use crate::lines::Lines;
use crate::number::read_count;
use crate::standing::read_state;
use candidate_roll::{MOST_NAME_BYTES, Name, Names, State, States};
use std::alloc::Global;

/// The last states and the names of `n` candidates, where the sheet ends after them.
pub(crate) fn read_end(
    alloc: Global,
    lines: &mut Lines<'_>,
    n: usize,
) -> Result<(States, Names), SheetStop>
    requires few { n ≤ MOST_CANDIDATES }
    ensures { MatchResult result
        (λ read. (length read.0 ≡ n) × (length read.1 ≡ n) × All (IsName MOST_NAME_BYTES) read.1 × (lines.old ≡ end_lines n read.0 read.1))
        (λ stop. Stops stop (NoEnd n lines.old)) }
{
    let outcomes = match read_outcomes(alloc, lines, n) {
        Ok(outcomes) => outcomes,
        Err(stop) => return Err(stop),
    };
    if is_at_end(lines) {
        Ok(outcomes)
    } else {
        Err(SheetStop::Malformed)
    }
}

/// Whether only the last line of a sheet is left.
fn is_at_end(lines: &mut Lines<'_>) -> bool
    ensures { MatchBool result (lines.old ≡ codes "end" ∷ []) (lines.old ≢ codes "end" ∷ []) }
{
    if !lines.skips(b"end") {
        return false;
    }
    match lines.next() {
        None => true,
        Some(_) => false,
    }
}

/// The last states and the names of `n` candidates.
fn read_outcomes(
    alloc: Global,
    lines: &mut Lines<'_>,
    n: usize,
) -> Result<(States, Names), SheetStop>
    requires few { n ≤ MOST_CANDIDATES }
    ensures { MatchResult result
        (λ read. (length read.0 ≡ n) × (length read.1 ≡ n) × All (IsName MOST_NAME_BYTES) read.1
        × (lines.old ≡ each_place n (outcome_line read.0 read.1) ++ lines.new))
        (λ stop. Stops stop ((states : List State) (names : List (List ℕ)) (rest : List (List ℕ))
        → length names ≡ n → All (IsName MOST_NAME_BYTES) names → lines.old ≢ each_place n (outcome_line states names) ++ rest)) }
{
    let Ok(mut states) = States::filled(alloc, n, State::Withdrawn) else {
        return Err(SheetStop::NoMemory);
    };
    let mut names = Names::new(alloc);
    for p in 0..n {
        let (state, name) = match read_outcome(alloc, lines, p) {
            Ok(outcome) => outcome,
            Err(stop) => return Err(stop),
        };
        let Ok(()) = names.push(name) else {
            return Err(SheetStop::NoMemory);
        };
        states.set(p, state);
    }
    Ok((states, names))
}

/// The last state and the name of the candidate at place `p`.
fn read_outcome(
    alloc: Global,
    lines: &mut Lines<'_>,
    p: usize,
) -> Result<(State, Name<MOST_NAME_BYTES>), SheetStop>
    requires place { p < MOST_CANDIDATES }
    ensures { MatchResult result
        (λ read. IsName MOST_NAME_BYTES read.1 × (lines.old ≡ outcome_of p read.0 read.1 ∷ lines.new))
        (λ stop. Stops stop ((state : State) (name : List ℕ) (rest : List (List ℕ)) → IsName MOST_NAME_BYTES name
        → lines.old ≢ outcome_of p state name ∷ rest)) }
{
    let Some(text) = lines.next() else {
        return Err(SheetStop::Malformed);
    };
    let Some((state, bytes)) = outcome_parts(text, p) else {
        return Err(SheetStop::Malformed);
    };
    match read_name(alloc, bytes) {
        Ok(name) => Ok((state, name)),
        Err(stop) => Err(stop),
    }
}

/// The state and the bytes of the name in the line of the candidate at place `p`.
fn outcome_parts(text: &[u8], p: usize) -> Option<(State, &[u8])>
    requires place { p < MOST_CANDIDATES }
    ensures { MatchOption result
        ((state : State) (name : List ℕ) → text.now ≢ outcome_of p state name)
        (λ parts. text.now ≡ outcome_of p parts.0 parts.1.now) }
{
    let Some((number, rest)) = cut(text, b' ') else {
        return None;
    };
    let Some((word, name)) = cut(rest, b' ') else {
        return None;
    };
    let Some(c) = read_count(number) else {
        return None;
    };
    if c != p as u64 + 1 {
        return None;
    }
    match read_state(word) {
        Some(state) => Some((state, name)),
        None => None,
    }
}
