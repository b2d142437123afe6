// Names and titles.
ghost use Rattle.std.specs.Prelude.{◌≡◌, ◌≤◌, ℕ, List, [], length, IfOk, IfErr, OnOk, ◌∷◌, ◌++◌};
ghost use Rattle.plain_ballots.specs.declared.ballot_line.BallotLine.{BallotLine};
ghost use Rattle.candidate_roll.specs.Name.{IsName};
ghost use Rattle.input_text.specs.declared.input_stop.InputStop.TheVariants as stop;
ghost use Rattle.input_text.specs.Reads.{IsBehind, Stops, Accepts, IfFault};
ghost use Rattle.blt_reader.specs.Reads.{as_name, ReadsNames};

use candidate_roll::{Name, NameStop, Names};
use input_text::{FaultKind, InputStop, Tokens, What};
use std::alloc::Global;

/// A name, or a title, of at most `MAX` bytes.
pub(crate) fn read_name<const MAX: usize>(
    alloc: Global,
    tokens: &mut Tokens<'_>,
) -> Result<Name<MAX>, InputStop>
    ensures name { IfOk result (λ name. Accepts (as_name MAX) tokens.old.rest name tokens.new.rest) }
    ensures fault { IfFault result (λ fault. Stops (as_name MAX) tokens.old.rest fault tokens.new.rest) }
    ensures behind { IsBehind tokens.old tokens.new }
{
    let token = tokens.next_token()?;
    let What::Text = token.what else {
        return Err(InputStop::refused(FaultKind::NameExpected, token.at));
    };
    match Name::try_new(alloc, tokens.text(token)) {
        Ok(name) => Ok(name),
        Err(NameStop::NoMemory) => Err(InputStop::NoMemory),
        Err(NameStop::TooLong) => Err(InputStop::refused(FaultKind::TooLongName, token.at)),
        Err(NameStop::BadByte(_)) => unreachable!(),
    }
}

/// The names of all candidates, in number order.
pub(crate) fn read_names(
    alloc: Global,
    tokens: &mut Tokens<'_>,
    candidates: u32,
) -> Result<Names, InputStop>
    ensures reads { ReadsNames candidates tokens.old.rest result tokens.new.rest }
    ensures all { IfOk result (λ names. length names ≡ candidates) }
    ensures behind { IsBehind tokens.old tokens.new }
{
    let mut names = Names::new(alloc);
    for _ in 0..candidates {
        let name = read_name(alloc, tokens)?;
        let Ok(()) = names.push(name) else {
            return Err(InputStop::NoMemory);
        };
    }
    Ok(names)
}
