// An iteration in a sheet.
ghost use Rattle.std.specs.Prelude.{◌≡◌, ◌≢◌, ◌<◌, ◌≤◌, ◌^◌, ◌∷◌, ◌++◌, ℕ, List, All, codes, decimal, length, MatchBool, MatchOption};
ghost use Rattle.plain_ballots.specs.declared.limits.TheConstants.{MOST_CANDIDATES};
ghost use Rattle.candidate_roll.specs.declared.state.State.{State};
ghost use Rattle.fixed_place.specs.Rounding.{most, scale};
ghost use Rattle.fixed_place.specs.Text.{text_of};
ghost use Rattle.meek_rule.specs.Row.{HasRoomFor};
ghost use Rattle.sheet_text.specs.Lines.{row_lines};
ghost use Rattle.sheet_reader.specs.Cut.{standing_line};
ghost use Rattle.sheet_reader.specs.Form.{IsPrintableRow};
ghost use Rattle.sheet_reader.specs.Parts.{NoRow, ReadsStanding, amount_lines_of, number_line_of, standing_lines};

use crate::cut::{cut, strip};
use crate::decision::read_decision;
use crate::lines::Lines;
use crate::number::{read_count, read_units};
use crate::standing::read_standing;
use candidate_roll::States;
use fixed_place::{Amount, Amounts, Keep, Keeps};
use line_text::Line;
use meek_rule::Row;

/// Reads an iteration into a row that has room for all candidates; whether there is one.
pub(crate) fn read_row<const P: usize>(
    lines: &mut Lines<'_>,
    line: &mut Line,
    row: &mut Row<P>,
) -> bool
    requires places { (6 ≤ P) × (P ≤ 9) }
    requires room { HasRoomFor (length row.old.states) row.old }
    requires few { length row.old.states ≤ MOST_CANDIDATES }
    ensures { MatchBool result
        (IsPrintableRow P (length row.old.states) row.new × (lines.old ≡ row_lines P row.new ++ lines.new))
        (NoRow P (length row.old.states) lines.old) }
{
    let Some((round, iteration)) = read_numbers(lines) else {
        return false;
    };
    if !read_standings::<P>(lines, line, &mut row.states, &mut row.keeps, &mut row.votes) {
        return false;
    }
    let Some((total, quota, surplus)) = read_amounts::<P>(lines, line) else {
        return false;
    };
    let Some(step) = read_decision(lines, &mut row.elected, &mut row.capped, &mut row.tied) else {
        return false;
    };
    row.round = round;
    row.iteration = iteration;
    row.total = total;
    row.quota = quota;
    row.surplus = surplus;
    row.step = step;
    true
}

/// The numbers of the round and of the iteration.
fn read_numbers(lines: &mut Lines<'_>) -> Option<(u32, u64)>
    ensures { MatchOption result
        ((round iteration : ℕ) (rest : List (List ℕ)) → round < 2 ^ 32 → iteration < 2 ^ 64
        → lines.old ≢ number_line_of round iteration ∷ rest)
        (λ n. (n.0 < 2 ^ 32) × (n.1 < 2 ^ 64) × (lines.old ≡ number_line_of n.0 n.1 ∷ lines.new)) }
{
    let Some(text) = lines.next_after(b"round ") else {
        return None;
    };
    let Some((round, rest)) = cut(text, b' ') else {
        return None;
    };
    let Some(iteration) = strip(rest, b"iteration ") else {
        return None;
    };
    let Some(round) = read_count(round) else {
        return None;
    };
    let Some(iteration) = read_count(iteration) else {
        return None;
    };
    if round > u32::MAX as u64 {
        return None;
    }
    Some((round as u32, iteration))
}

/// The states, keep values and votes of all candidates.
fn read_standings<const P: usize>(
    lines: &mut Lines<'_>,
    line: &mut Line,
    states: &mut States,
    keeps: &mut Keeps<P>,
    votes: &mut Amounts<P>,
) -> bool
    requires places { (6 ≤ P) × (P ≤ 9) }
    requires few { length states.old ≤ MOST_CANDIDATES }
    requires keeps { length keeps.old ≡ length states.old }
    requires votes { length votes.old ≡ length states.old }
    ensures states { length states.new ≡ length states.old }
    ensures keeps { length keeps.new ≡ length states.old }
    ensures votes { length votes.new ≡ length states.old }
    ensures read { MatchBool result
        (All (λ keep. keep ≤ scale P) keeps.new × All (λ vote. vote ≤ most P) votes.new
        × (lines.old ≡ standing_lines P (length states.old) states.new keeps.new votes.new ++ lines.new))
        ((s : List State) (k v : List ℕ) (rest : List (List ℕ)) → length k ≡ length states.old → length v ≡ length states.old
        → All (λ keep. keep ≤ scale P) k → All (λ vote. vote ≤ most P) v
        → lines.old ≢ standing_lines P (length states.old) s k v ++ rest) }
{
    for p in 0..states.len() {
        if !read_standing_into::<P>(lines, line, p, states, keeps, votes) {
            return false;
        }
    }
    let _bounds = (keeps.len(), votes.len());
    true
}

/// The state, keep value and vote of the candidate at place `p`.
fn read_standing_into<const P: usize>(
    lines: &mut Lines<'_>,
    line: &mut Line,
    p: usize,
    states: &mut States,
    keeps: &mut Keeps<P>,
    votes: &mut Amounts<P>,
) -> bool
    requires places { (6 ≤ P) × (P ≤ 9) }
    requires few { length states.old ≤ MOST_CANDIDATES }
    requires place { p < length states.old }
    requires keeps { length keeps.old ≡ length states.old }
    requires votes { length votes.old ≡ length states.old }
    ensures states { length states.new ≡ length states.old }
    ensures keeps { length keeps.new ≡ length states.old }
    ensures votes { length votes.new ≡ length states.old }
    ensures read { MatchBool result
        (ReadsStanding P p states.old keeps.old votes.old states.new keeps.new votes.new lines.old lines.new)
        ((s : State) (k v : ℕ) (rest : List (List ℕ)) → k ≤ scale P → v ≤ most P → lines.old ≢ standing_line P p s k v ∷ rest) }
{
    let Some(text) = lines.next() else {
        return false;
    };
    let Some(standing) = read_standing::<P>(line, text, p) else {
        return false;
    };
    states.set(p, standing.state);
    keeps.set(p, Keep::from_units(standing.keep));
    votes.set(p, Amount::from_units(standing.vote));
    true
}

/// The total of the votes, the quota and the surplus.
fn read_amounts<const P: usize>(
    lines: &mut Lines<'_>,
    line: &mut Line,
) -> Option<(Amount<P>, Amount<P>, Amount<P>)>
    requires places { (6 ≤ P) × (P ≤ 9) }
    ensures { MatchOption result
        ((total quota surplus : ℕ) (rest : List (List ℕ)) → total ≤ most P → quota ≤ most P → surplus ≤ most P
        → lines.old ≢ amount_lines_of P total quota surplus ++ rest)
        (λ a. (a.0 ≤ most P) × (a.1 ≤ most P) × (a.2 ≤ most P)
        × (lines.old ≡ amount_lines_of P a.0 a.1 a.2 ++ lines.new)) }
{
    let Some(total) = read_amount::<P>(lines, line, b"total ") else {
        return None;
    };
    let Some(quota) = read_amount::<P>(lines, line, b"quota ") else {
        return None;
    };
    let Some(surplus) = read_amount::<P>(lines, line, b"surplus ") else {
        return None;
    };
    Some((total, quota, surplus))
}

/// A line of a word, which brings its space, and an amount.
fn read_amount<const P: usize>(
    lines: &mut Lines<'_>,
    line: &mut Line,
    word: &[u8],
) -> Option<Amount<P>>
    requires places { (6 ≤ P) × (P ≤ 9) }
    ensures { MatchOption result
        ((u : ℕ) (rest : List (List ℕ)) → u ≤ most P → lines.old ≢ (word.now ++ text_of P u) ∷ rest)
        (λ a. (a ≤ most P) × (lines.old ≡ (word.now ++ text_of P a) ∷ lines.new)) }
{
    let Some(text) = lines.next_after(word) else {
        return None;
    };
    let Some(units) = read_units::<P>(line, text) else {
        return None;
    };
    Some(Amount::from_units(units))
}
