// A candidate's line in an iteration.
ghost use Rattle.std.specs.Prelude.{◌≡◌, ◌+◌, ◌<◌, ◌≤◌, ◌≢◌, ℕ, List, Some, IfSome, MatchOption};
ghost use Rattle.plain_ballots.specs.declared.limits.TheConstants.{MOST_CANDIDATES};
ghost use Rattle.candidate_roll.specs.declared.state.State.{State};
ghost use Rattle.fixed_place.specs.Rounding.{most, scale};
ghost use Rattle.sheet_text.specs.Lines.{state_word};
ghost use Rattle.sheet_reader.specs.Cut.{IsWithout, four_parts_of, standing_line};

use crate::cut::{cut, is_same};
use crate::number::{read_count, read_units};
use candidate_roll::State;
use fixed_place::scale_of;
use line_text::Line;

/// A candidate in an iteration, the amounts in units.
#[derive(Clone, Copy)]
pub(crate) struct Standing {
    pub state: State,
    pub keep: u64,
    pub vote: u64,
}

/// What candidate p + 1's line says.
pub(crate) fn read_standing<const P: usize>(
    line: &mut Line,
    text: &[u8],
    p: usize,
) -> Option<Standing>
    requires places { (6 ≤ P) × (P ≤ 9) }
    requires place { p < MOST_CANDIDATES }
    ensures sound { IfSome result (λ s. (s.keep ≤ scale P) × (s.vote ≤ most P) × (text.now ≡ standing_line P p s.state s.keep s.vote)) }
    ensures whole { (state : State) (keep vote : ℕ) → keep ≤ scale P → vote ≤ most P → text.now ≡ standing_line P p state keep vote → result ≡ Some (record { state = state; keep = keep; vote = vote }) }
{
    let Some((number, word, keep, vote)) = four_parts(text) else {
        return None;
    };
    let (Some(c), Some(state), Some(keep), Some(vote)) = (
        read_count(number),
        read_state(word),
        read_units::<P>(line, keep),
        read_units::<P>(line, vote),
    ) else {
        return None;
    };
    if c != p as u64 + 1 {
        return None;
    }
    if keep > scale_of::<P>() {
        return None;
    }
    Some(Standing { state, keep, vote })
}

/// The state that a word names.
pub(crate) fn read_state(text: &[u8]) -> Option<State>
    ensures sound { IfSome result (λ state. text.now ≡ state_word state) }
    ensures whole { (state : State) → text.now ≡ state_word state → result ≡ Some state }
{
    if is_same(text, b"hopeful") {
        Some(State::Hopeful)
    } else if is_same(text, b"elected") {
        Some(State::Elected)
    } else if is_same(text, b"defeated") {
        Some(State::Defeated)
    } else if is_same(text, b"withdrawn") {
        Some(State::Withdrawn)
    } else {
        None
    }
}

/// The parts of a line around its first three spaces.
fn four_parts(text: &[u8]) -> Option<(&[u8], &[u8], &[u8], &[u8])>
    ensures { MatchOption result
        ((a b c d : List ℕ) → IsWithout 32 a → IsWithout 32 b → text.now ≢ four_parts_of a b c d)
        (λ parts. (text.now ≡ four_parts_of parts.0.now parts.1.now parts.2.now parts.3.now)
        × IsWithout 32 parts.0.now × IsWithout 32 parts.1.now × IsWithout 32 parts.2.now) }
{
    let Some((a, rest)) = cut(text, b' ') else {
        return None;
    };
    let Some((b, rest)) = cut(rest, b' ') else {
        return None;
    };
    match cut(rest, b' ') {
        Some((c, d)) => Some((a, b, c, d)),
        None => None,
    }
}
