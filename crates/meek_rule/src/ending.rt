// What the end of a count makes of the candidates.
ghost use Rattle.std.specs.Prelude.{◌≡◌, length, slice_index};
ghost use Rattle.candidate_roll.specs.State.{state_at};
ghost use Rattle.meek_rule.specs.Places.{each_place};
ghost use Rattle.meek_rule.specs.Situation.{final_state, final_keep};

use crate::states::is_hopeful;
use candidate_roll::{State, States};
use fixed_place::{Keep, Keeps};

/// Gives each candidate the state that it has at the end.
pub(crate) fn end_states(states: &mut States, full: bool)
    ensures { states.new ≡ each_place (length states.old) (λ p. final_state full (state_at states.old p)) }
{
    for p in 0..states.len() {
        let state = final_state(*states.get(p), full);
        states.set(p, state);
    }
}

/// What becomes of a state at the end.
fn final_state(state: State, full: bool) -> State
    ensures { result ≡ final_state full state }
{
    match (state, full) {
        (State::Hopeful, true) => State::Defeated,
        (State::Hopeful, false) => State::Elected,
        (state, _) => state,
    }
}

/// Takes the keep value from each candidate that is defeated at the end.
pub(crate) fn end_keeps<const P: usize>(states: &States, keeps: &mut Keeps<P>, full: bool)
    requires { length keeps.old ≡ length states.now }
    ensures { keeps.new ≡ each_place (length states.now) (λ p. final_keep full (state_at states.now p) (slice_index keeps.old p)) }
{
    // Their places are 6 to 9.
    let _places = keeps.len();
    for p in 0..states.len() {
        let keep = if full && is_hopeful(states, p) {
            Keep::from_units(0)
        } else {
            *keeps.get(p)
        };
        keeps.set(p, keep);
    }
}
