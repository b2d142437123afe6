// Files up to their title.
ghost use Rattle.std.specs.Prelude.{◌≡◌, ◌≤◌, length, All, IfOk, IfErr};
ghost use Rattle.plain_ballots.specs.declared.limits.TheConstants.{MOST_BALLOTS};
ghost use Rattle.candidate_roll.specs.Roll.{IsFew, withdrawn_marks};
ghost use Rattle.input_text.specs.declared.input_stop.InputStop.TheVariants as stop;
ghost use Rattle.blt_reader.specs.BltTable.{Candidates, at_token};
ghost use Rattle.blt_reader.specs.Said.{limit_of, IsRollOf, IsRollRefusal};
ghost use Rattle.input_text.specs.Reads.{IsBehind, IfFault, Reads};
ghost use Rattle.blt_reader.specs.Stored.{ReadsHeld};
ghost use Rattle.blt_reader.specs.Election.{poll, poll_of_lines};

use crate::line_bounds::LineBounds;
use crate::line_reader::{LineReader, OneByOne};
use crate::names::{read_name, read_names};
use crate::opening::read_opening;
use crate::{Election, StoredElection};
use candidate_roll::{MOST_TITLE_BYTES, Name, Names, Roll, RollStop};
use input_text::{FaultKind, InputStop, Tokens};
use packed_ballots::BallotStore;
use plain_ballots::{Ballots, MOST_BALLOTS};
use std::alloc::Global;

/// Reads a file up to its title and no further: an Ok leaves the reader right after the title.
/// Without `with_ballots` any ballot is refused as [`FaultKind::BallotsInRoll`] at its count. After
/// an Err the reader is right after the last token that it has given: after a refusal of a token
/// that is the refused one, and after want of memory no clause says which of them it is.
pub fn read_roll(
    alloc: Global,
    tokens: &mut Tokens<'_>,
    with_ballots: bool,
) -> Result<Election, InputStop>
    ensures accepted { IfOk result (λ e. IsRollOf (limit_of with_ballots) tokens.old.rest (poll e) tokens.new.rest) }
    ensures refused { IfFault result (λ fault. IsRollRefusal (limit_of with_ballots) tokens.old.rest fault) }
    ensures reads { Reads (at_token (limit_of with_ballots)) Candidates poll tokens.old.rest result tokens.new.rest }
    ensures candidates { IfOk result (λ e. e.ballots.candidates ≡ length e.roll.names) }
    ensures behind { IsBehind tokens.old tokens.new }
{
    if with_ballots {
        read_election(alloc, tokens, MOST_BALLOTS, FaultKind::TooManyBallots)
    } else {
        read_election(alloc, tokens, 0, FaultKind::BallotsInRoll)
    }
}

fn read_election(
    alloc: Global,
    tokens: &mut Tokens<'_>,
    most: u32,
    refusal: FaultKind,
) -> Result<Election, InputStop>
    requires { most ≤ MOST_BALLOTS }
    ensures reads { Reads (at_token (record { most = most; refusal = refusal })) Candidates poll tokens.old.rest result tokens.new.rest }
    ensures candidates { IfOk result (λ e. e.ballots.candidates ≡ length e.roll.names) }
    ensures behind { IsBehind tokens.old tokens.new }
{
    let stored = read_up_to_title::<Ballots, OneByOne>(alloc, tokens, most, refusal, &OneByOne)?;
    Ok(Election {
        roll: stored.roll,
        ballots: stored.ballots,
    })
}

/// A file up to its title, of at most `most` ballots, more of which are refused for `refusal`.
pub(crate) fn read_up_to_title<B: BallotStore + Drop, L: LineReader<B>>(
    alloc: Global,
    tokens: &mut Tokens<'_>,
    most: u32,
    refusal: FaultKind,
    how: &L,
) -> Result<StoredElection<B>, InputStop>
    requires { most ≤ MOST_BALLOTS }
    ensures reads { ReadsHeld (λ e. B.holds e.ballots) (at_token (record { most = most; refusal = refusal })) Candidates poll_of_lines tokens.old.rest result tokens.new.rest }
    ensures candidates { IfOk result (λ e. B.among e.ballots ≡ length e.roll.names) }
    ensures behind { IsBehind tokens.old tokens.new }
{
    let opening = read_opening(alloc, tokens)?;
    let candidates = opening.candidates;
    let Ok(empty) = B::empty(alloc, candidates) else {
        return Err(InputStop::NoMemory);
    };
    let bounds = LineBounds {
        candidates,
        most,
        refusal,
    };
    let ballots = how.read_lines(alloc, tokens, empty, bounds, opening.first)?;
    let names = read_names(alloc, tokens, candidates)?;
    let title = read_name(alloc, tokens)?;
    let withdrawn = opening.withdrawn.as_slice();
    let roll = new_roll(alloc, opening.seats, names, title, withdrawn)?;
    Ok(StoredElection { roll, ballots })
}

// The roll of numbers that are known to make one.
fn new_roll(
    alloc: Global,
    seats: u32,
    names: Names,
    title: Name<MOST_TITLE_BYTES>,
    withdrawn: &[u32],
) -> Result<Roll, InputStop>
    requires seats { IsFew seats }
    requires candidates { IsFew (length names) }
    requires withdrawn { All (λ c. (1 ≤ c) × (c ≤ length names)) withdrawn.now }
    ensures roll { IfOk result (λ roll. roll ≡ record { seats = seats; names = names; title = title; withdrawn = withdrawn_marks (length names) withdrawn.now }) }
    ensures only_memory { IfErr result (λ why. why ≡ stop.NoMemory) }
{
    match Roll::try_new(alloc, seats, names, title, withdrawn) {
        Ok(roll) => Ok(roll),
        Err(RollStop::NoMemory) => Err(InputStop::NoMemory),
        Err(RollStop::BadCount) => unreachable!(),
        Err(RollStop::BadSeats) => unreachable!(),
    }
}
