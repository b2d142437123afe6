// What parts of a sheet are called.
ghost use Rattle.std.specs.Prelude.{◌≡◌, ◌≤◌};
ghost use Rattle.fixed_place.specs.Rounding.{scale};
ghost use Rattle.sheet_text.specs.Lines.{state_word};
ghost use Rattle.sheet_page.specs.Values.{defeats, step_word};

use candidate_roll::State;
use fixed_place::{Amount, Keep};
use meek_rule::Step;

pub(crate) fn state_word(state: State) -> &'static [u8]
    ensures { result.now ≡ state_word state }
{
    match state {
        State::Hopeful => b"hopeful",
        State::Elected => b"elected",
        State::Defeated => b"defeated",
        State::Withdrawn => b"withdrawn",
    }
}

pub(crate) fn step_word(step: Step) -> &'static [u8]
    ensures { result.now ≡ step_word step }
{
    match step {
        Step::Elected => b"elected",
        Step::Iterate => b"iterate",
        Step::Defeat(_) => b"defeat",
    }
}

/// Whether a step defeats this candidate.
pub(crate) fn defeats(step: Step, candidate: u32) -> bool
    ensures { result ≡ defeats step candidate }
{
    match step {
        Step::Elected => false,
        Step::Iterate => false,
        Step::Defeat(defeated) => defeated == candidate,
    }
}

/// A keep value as an amount of votes: what it keeps of one vote.
pub(crate) fn kept_of_one<const P: usize>(keep: Keep<P>) -> Amount<P>
    ensures { result ≡ keep.entry }
{
    Amount::from_units(keep.units())
}
