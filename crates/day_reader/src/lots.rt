// The lots of a day.
ghost use Rattle.std.specs.Prelude.{◌≡◌, ◌≤◌, [], length, IfOk, IfErr};
ghost use Rattle.plain_ballots.specs.declared.limits.TheConstants.{MOST_CANDIDATES};
ghost use Rattle.input_text.specs.Reader.{IsTokenAt, said};
ghost use Rattle.input_text.specs.Reads.{IsBehind, Reads};
ghost use Rattle.input_text.specs.declared.input_stop.InputStop.TheVariants as stop;
ghost use Rattle.day_reader.specs.Day.{AreAllLots};
ghost use Rattle.day_reader.specs.DayTable.{at_lot};
ghost use Rattle.day_reader.specs.Reads.{IsLotsWord, ReadsOrder, ReadsToLots};

use crate::keyword::Keyword;
use crate::words::keyword_at;
use input_text::{FaultKind, InputFault, InputStop, Token, Tokens, What};
use lot_order::{Flags, Lots};
use std::alloc::Global;

/// Strings that are not kept, and the lots of so many candidates.
#[tactic(auto, using(input_text::proofs::Reading::behind_trans))]
pub(crate) fn read_order(
    alloc: Global,
    tokens: &mut Tokens<'_>,
    candidates: u32,
) -> Result<Lots, InputStop>
    requires { candidates ≤ MOST_CANDIDATES }
    ensures reads { ReadsOrder candidates tokens.old.rest result tokens.new.rest }
    ensures behind { IsBehind tokens.old tokens.new }
{
    read_to_lots(tokens)?;
    read_lots(alloc, tokens, candidates)
}

/// Strings that are not kept, and the word `lots`.
#[tactic(auto, using(input_text::proofs::Reading::behind_trans))]
fn read_to_lots(tokens: &mut Tokens<'_>) -> Result<(), InputFault>
    ensures reads { ReadsToLots tokens.old.rest result tokens.new.rest }
    ensures behind { IsBehind tokens.old tokens.new }
{
    loop {
        let token = tokens.next_token()?;
        match token.what {
            What::Text => {}
            _ => return lots_word(tokens, token),
        }
    }
}

fn lots_word(tokens: &Tokens<'_>, token: Token) -> Result<(), InputFault>
    requires { IsTokenAt tokens.now.bytes token.at token.stop token.what }
    ensures { IsLotsWord (said tokens.now.bytes token.at token.stop token.what) token.at result }
{
    let Some(keyword) = keyword_at(tokens, token) else {
        return Err(InputFault::new(FaultKind::WordExpected, token.at));
    };
    match keyword {
        Keyword::Lots => Ok(()),
        _ => Err(InputFault::new(FaultKind::WordExpected, token.at)),
    }
}

/// Candidates, each of them once, and the 0 after them.
#[tactic(auto, using(input_text::proofs::Reading::behind_trans))]
fn read_lots(alloc: Global, tokens: &mut Tokens<'_>, candidates: u32) -> Result<Lots, InputStop>
    requires { candidates ≤ MOST_CANDIDATES }
    ensures reads { Reads (at_lot candidates) [] (λ lots. lots) tokens.old.rest result tokens.new.rest }
    ensures behind { IsBehind tokens.old tokens.new }
{
    let Ok(mut stood) = Flags::filled(alloc, candidates as usize, false) else {
        return Err(InputStop::NoMemory);
    };
    let mut order = Vec::new(alloc);
    loop {
        let (n, at) = tokens.next_number()?;
        if n == 0 {
            if order.len() < candidates as usize {
                return Err(InputStop::refused(FaultKind::BadLots, at));
            }
            return new_lots(alloc, order.as_slice(), candidates);
        }
        if n > candidates {
            return Err(InputStop::refused(FaultKind::BadLots, at));
        }
        if *stood.get(n as usize - 1) {
            return Err(InputStop::refused(FaultKind::BadLots, at));
        }
        stood.set(n as usize - 1, true);
        order.push(n)?;
    }
}

// The lots of an order that is known to be one.
fn new_lots(alloc: Global, order: &[u32], candidates: u32) -> Result<Lots, InputStop>
    requires few { candidates ≤ MOST_CANDIDATES }
    requires lots { AreAllLots candidates order.now }
    ensures lots { IfOk result (λ lots. lots ≡ order.now) }
    ensures only_memory { IfErr result (λ why. why ≡ stop.NoMemory) }
{
    match Lots::try_new(alloc, order, candidates) {
        Ok(lots) => Ok(lots),
        Err(_) => Err(InputStop::NoMemory),
    }
}
