// How many candidates are elected or hopeful, and who is.
ghost use Rattle.std.specs.Prelude.{◌≡◌, ◌<◌, ◌≤◌, length};
ghost use Rattle.plain_ballots.specs.declared.limits.TheConstants.{MOST_CANDIDATES};
ghost use Rattle.candidate_roll.specs.State.{state_at};
ghost use Rattle.meek_rule.specs.Situation.{is_elected, is_hopeful, elected_count, hopeful_count};

use candidate_roll::{State, States};

/// How many are elected.
pub(crate) fn count_elected(states: &States) -> u32
    requires { length states.now ≤ MOST_CANDIDATES }
    ensures value { result ≡ elected_count states.now }
    ensures bound { result ≤ MOST_CANDIDATES }
{
    states
        .items()
        .iter()
        .filter(|state| matches!(state, State::Elected))
        .count() as u32
}

/// How many are hopeful.
pub(crate) fn count_hopeful(states: &States) -> u32
    requires { length states.now ≤ MOST_CANDIDATES }
    ensures value { result ≡ hopeful_count states.now }
    ensures bound { result ≤ MOST_CANDIDATES }
{
    states
        .items()
        .iter()
        .filter(|state| matches!(state, State::Hopeful))
        .count() as u32
}

/// Whether the candidate at a place is elected.
pub(crate) fn is_elected(states: &States, p: usize) -> bool
    requires { p < length states.now }
    ensures { result ≡ is_elected (state_at states.now p) }
{
    matches!(states.get(p), State::Elected)
}

/// Whether the candidate at a place is hopeful.
pub(crate) fn is_hopeful(states: &States, p: usize) -> bool
    requires { p < length states.now }
    ensures { result ≡ is_hopeful (state_at states.now p) }
{
    matches!(states.get(p), State::Hopeful)
}
