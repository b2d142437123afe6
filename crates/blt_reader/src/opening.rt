// What is before the ballots of a file.
ghost use Rattle.std.specs.Prelude.{◌≡◌, ◌+◌, ◌<◌, [], length, All, IfOk, IfErr, OnOk};
ghost use Rattle.input_text.specs.declared.input_stop.InputStop.TheVariants as stop;
ghost use Rattle.input_text.specs.Range.{IsIn};
ghost use Rattle.blt_reader.specs.Opening.{Marks, IsListedMore, ReadsWithdrawn, ReadsOpening, IsOpening};
ghost use Rattle.input_text.specs.Reads.{IsBehind, Stops, Accepts};
ghost use Rattle.blt_reader.specs.Reads.{as_size};

use crate::named::Named;
use input_text::{FaultKind, InputFault, InputStop, Tokens, What};
use plain_ballots::MOST_CANDIDATES;
use std::alloc::Global;

/// The numbers of candidates and seats, each withdrawn candidate once, and the first count, which
/// ends their list, with its place.
#[derive(Drop)]
pub(crate) struct Opening {
    pub candidates: u32,
    pub seats: u32,
    pub withdrawn: Vec<u32>,
    pub first: (u32, usize),
}

pub(crate) fn read_opening(alloc: Global, tokens: &mut Tokens<'_>) -> Result<Opening, InputStop>
    ensures reads { ReadsOpening tokens.old.rest result tokens.new.rest }
    ensures sound { IfOk result IsOpening }
    ensures behind { IsBehind tokens.old tokens.new }
{
    let candidates = read_size(tokens)?;
    let seats = read_size(tokens)?;
    let mut withdrawn = Vec::new(alloc);
    let first = read_withdrawn(alloc, tokens, candidates, &mut withdrawn)?;
    Ok(Opening {
        candidates,
        seats,
        withdrawn,
        first,
    })
}

// A number of candidates or seats.
fn read_size(tokens: &mut Tokens<'_>) -> Result<u32, InputFault>
    ensures size { IfOk result (λ n. Accepts as_size tokens.old.rest n tokens.new.rest) }
    ensures fault { IfErr result (λ fault. Stops as_size tokens.old.rest fault tokens.new.rest) }
    ensures behind { IsBehind tokens.old tokens.new }
{
    let token = tokens.next_token()?;
    match token.what {
        What::Number(n) if n >= 1 && n <= MOST_CANDIDATES => Ok(n),
        _ => Err(InputFault {
            kind: FaultKind::BadHeader,
            at: token.at,
        }),
    }
}

// Withdrawn candidates, up to the first count after them and its place.
fn read_withdrawn(
    alloc: Global,
    tokens: &mut Tokens<'_>,
    candidates: u32,
    withdrawn: &mut Vec<u32>,
) -> Result<(u32, usize), InputStop>
    requires { withdrawn.old.items ≡ [] }
    ensures reads { ReadsWithdrawn candidates tokens.old.rest withdrawn.new.items result tokens.new.rest }
    ensures each { OnOk result (All (IsIn candidates) withdrawn.new.items) }
    ensures behind { IsBehind tokens.old tokens.new }
{
    let mut named = Named::new(alloc, candidates as usize + 1)?;
    loop {
        let token = tokens.next_token()?;
        match token.what {
            What::Number(n) => return Ok((n, token.at)),
            What::Minus(n) if n >= 1 && n <= candidates => {
                list_once(&mut named, withdrawn, n)?;
            }
            What::Minus(_) => return Err(InputStop::refused(FaultKind::BadWithdrawn, token.at)),
            _ => return Err(InputStop::refused(FaultKind::BadNumber, token.at)),
        }
    }
}

// Puts a number on a list unless it is there.
fn list_once(named: &mut Named, listed: &mut Vec<u32>, n: u32) -> Result<(), InputStop>
    requires inside { n < length named.old }
    requires marks { Marks named.old listed.old.items }
    ensures more { OnOk result (IsListedMore listed.old.items n listed.new.items) }
    ensures marks { OnOk result (Marks named.new listed.new.items) }
    ensures numbers { length named.new ≡ length named.old }
    ensures only_memory { IfErr result (λ why. why ≡ stop.NoMemory) }
{
    if !named.mark(n as usize) {
        listed.push(n)?;
    }
    Ok(())
}
