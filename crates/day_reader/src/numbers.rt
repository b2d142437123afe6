// Numbers of day files.
ghost use Rattle.std.specs.Prelude.{IfOk, IfErr};
ghost use Rattle.input_text.specs.Reads.{IsBehind, Stops, Accepts};
ghost use Rattle.day_reader.specs.CallTable.{as_between};

use input_text::{FaultKind, InputFault, Tokens};

/// A number from the least to the most. Another number is refused with this kind of fault.
#[tactic(auto, using(input_text::proofs::Reading::behind_trans))]
pub(crate) fn read_between(
    tokens: &mut Tokens<'_>,
    least: u32,
    most: u32,
    refusal: FaultKind,
) -> Result<u32, InputFault>
    ensures number { IfOk result (λ n. Accepts (as_between least most refusal) tokens.old.rest n tokens.new.rest) }
    ensures fault { IfErr result (λ fault. Stops (as_between least most refusal) tokens.old.rest fault tokens.new.rest) }
    ensures behind { IsBehind tokens.old tokens.new }
{
    let (n, at) = tokens.next_number()?;
    if n < least || n > most {
        return Err(InputFault { kind: refusal, at });
    }
    Ok(n)
}
