// Whole ballot files.
ghost use Rattle.std.specs.Prelude.{◌≡◌, false, length, List, IfOk};
ghost use Rattle.plain_ballots.specs.declared.ballot_line.BallotLine.{BallotLine};
ghost use Rattle.plain_ballots.specs.declared.limits.TheConstants.{MOST_BALLOTS};
ghost use Rattle.input_text.specs.Scan.{scan};
ghost use Rattle.blt_reader.specs.Blt.{IsBlt};
ghost use Rattle.input_text.specs.Refusal.{IsAccepted};
ghost use Rattle.blt_reader.specs.Said.{of_a_file, reading, IsFileRefusal};
ghost use Rattle.input_text.specs.Reads.{IfFault};
ghost use Rattle.blt_reader.specs.Reads.{SaysFile, ReadsFurther};
ghost use Rattle.blt_reader.specs.Stored.{SaysStored};
ghost use Rattle.blt_reader.specs.Election.{poll, poll_of_lines};

use crate::line_reader::{LineReader, OneByOne};
use crate::rolls::read_up_to_title;
use crate::{Election, StoredElection};
use input_text::{FaultKind, InputFault, InputStop, Next, Tokens, What};
use packed_ballots::BallotStore;
use plain_ballots::{Ballots, MOST_BALLOTS};
use std::alloc::Global;

/// Reads a ballot file: Ok where it has no refusal, with the election that it says.
pub fn read_blt(alloc: Global, bytes: &[u8]) -> Result<Election, InputStop>
    ensures accepted { IfOk result (λ e. IsAccepted (IsBlt MOST_BALLOTS) (scan bytes.now false) (poll e)) }
    ensures refused { IfFault result (λ fault. IsFileRefusal of_a_file (scan bytes.now false) fault) }
    ensures says { SaysFile (reading bytes.now) result }
    ensures candidates { IfOk result (λ e. e.ballots.candidates ≡ length e.roll.names) }
{
    let stored = read_file::<Ballots, OneByOne>(alloc, bytes, &OneByOne)?;
    Ok(Election {
        roll: stored.roll,
        ballots: stored.ballots,
    })
}

/// The same into a store: Ok has the election that the file says, with the ballots of its lines held by the
/// store.
pub fn read_blt_into<B: BallotStore + Drop>(
    alloc: Global,
    bytes: &[u8],
) -> Result<StoredElection<B>, InputStop>
    ensures accepted { IfOk result (λ e. (lines : List BallotLine) × IsAccepted (IsBlt MOST_BALLOTS) (scan bytes.now false) (poll_of_lines e lines) × B.holds e.ballots lines) }
    ensures refused { IfFault result (λ fault. IsFileRefusal of_a_file (scan bytes.now false) fault) }
    ensures says { SaysStored B.holds (reading bytes.now) result }
    ensures candidates { IfOk result (λ e. B.among e.ballots ≡ length e.roll.names) }
{
    read_blt_by(alloc, bytes, &OneByOne)
}

/// The same, with the ballot lines read in a way of the caller's.
pub fn read_blt_by<B: BallotStore + Drop, L: LineReader<B>>(
    alloc: Global,
    bytes: &[u8],
    how: &L,
) -> Result<StoredElection<B>, InputStop>
    ensures accepted { IfOk result (λ e. (lines : List BallotLine) × IsAccepted (IsBlt MOST_BALLOTS) (scan bytes.now false) (poll_of_lines e lines) × B.holds e.ballots lines) }
    ensures refused { IfFault result (λ fault. IsFileRefusal of_a_file (scan bytes.now false) fault) }
    ensures says { SaysStored B.holds (reading bytes.now) result }
    ensures candidates { IfOk result (λ e. B.among e.ballots ≡ length e.roll.names) }
{
    read_file(alloc, bytes, how)
}

fn read_file<B: BallotStore + Drop, L: LineReader<B>>(
    alloc: Global,
    bytes: &[u8],
    how: &L,
) -> Result<StoredElection<B>, InputStop>
    ensures says { SaysStored B.holds (reading bytes.now) result }
    ensures candidates { IfOk result (λ e. B.among e.ballots ≡ length e.roll.names) }
{
    let mut tokens = Tokens::new(bytes, false);
    let election = read_up_to_title(
        alloc,
        &mut tokens,
        MOST_BALLOTS,
        FaultKind::TooManyBallots,
        how,
    )?;
    read_further(&mut tokens)?;
    Ok(election)
}

// Strings up to the end.
fn read_further(tokens: &mut Tokens<'_>) -> Result<(), InputFault>
    ensures { ReadsFurther tokens.old.rest result }
{
    loop {
        match tokens.next() {
            Next::Token(token) => match token.what {
                What::Text => {}
                _ => {
                    return Err(InputFault {
                        kind: FaultKind::Trailing,
                        at: token.at,
                    });
                }
            },
            Next::End => return Ok(()),
            Next::Fault(fault) => return Err(fault),
        }
    }
}
