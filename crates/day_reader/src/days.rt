// Whole day files.
ghost use Rattle.std.specs.Prelude.{◌≡◌, ◌≤◌, true, length, IfOk};
ghost use Rattle.input_text.specs.Scan.{scan};
ghost use Rattle.blt_reader.specs.BltTable.{Candidates};
ghost use Rattle.input_text.specs.Refusal.{IsAccepted};
ghost use Rattle.input_text.specs.Reads.{IfFault, IsBehind, Reads};
ghost use Rattle.day_reader.specs.Day.{IsDay};
ghost use Rattle.day_reader.specs.DayTable.{InRoll, BehindLots, at_token};
ghost use Rattle.day_reader.specs.Said.{reading, IsDayRefusal, AreScripts};
ghost use Rattle.day_reader.specs.Reads.{IsAtEnd, ReadsBehindLots, SaysDay};

use crate::laws::{accepts_days, refuses_by_the_rule};
use crate::lots::read_order;
use crate::scale::{Scale, read_scale};
use crate::team_reading::read_scripts;
use crate::{Day, Scripts};
use blt_reader::read_roll;
use candidate_roll::Roll;
use input_text::{FaultKind, InputFault, InputStop, Next, Tokens};
use lot_order::Lots;
use std::alloc::Global;

/// Reads a day file: Ok where it has no refusal, with the day that it says.
pub fn read_day(alloc: Global, bytes: &[u8]) -> Result<Day, InputStop>
    ensures accepted { IfOk result (λ day. IsAccepted IsDay (scan bytes.now true) day) }
    ensures refused { IfFault result (λ fault. IsDayRefusal (scan bytes.now true) fault) }
    ensures says { SaysDay (reading bytes.now) result }
    ensures scripts { IfOk result (λ day. AreScripts (length day.roll.names) day.scripts) }
    ensures lots { IfOk result (λ day. length day.lots ≡ length day.roll.names) }
    ensures places { IfOk result (λ day. (6 ≤ day.places) × (day.places ≤ 9)) }
{
    accepts_days();
    refuses_by_the_rule();
    read_file(alloc, bytes)
}

fn read_file(alloc: Global, bytes: &[u8]) -> Result<Day, InputStop>
    ensures { SaysDay (reading bytes.now) result }
{
    let mut tokens = Tokens::new(bytes, true);
    let day = read_to_end(alloc, &mut tokens)?;
    read_nothing(&mut tokens)?;
    Ok(day)
}

// A day file up to the word `end`.
#[tactic(auto, using(input_text::proofs::Reading::behind_trans))]
fn read_to_end(alloc: Global, tokens: &mut Tokens<'_>) -> Result<Day, InputStop>
    ensures reads { Reads at_token (InRoll Candidates) (λ day. day) tokens.old.rest result tokens.new.rest }
    ensures behind { IsBehind tokens.old tokens.new }
{
    let roll = read_roll(alloc, tokens, false)?.roll;
    let lots = read_order(alloc, tokens, roll.candidates())?;
    read_behind_lots(alloc, tokens, roll, lots)
}

// What is after the lots, up to the word `end`.
fn read_behind_lots(
    alloc: Global,
    tokens: &mut Tokens<'_>,
    roll: Roll,
    lots: Lots,
) -> Result<Day, InputStop>
    ensures reads { Reads at_token (BehindLots roll lots) (λ day. day) tokens.old.rest result tokens.new.rest }
    ensures behind { IsBehind tokens.old tokens.new }
{
    let (scale, scripts) = read_scaled_scripts(alloc, tokens, roll.candidates())?;
    Ok(Day {
        roll,
        lots,
        places: scale.places,
        omega: scale.omega,
        scripts,
    })
}

// The places and omega, and the teams, whatever stood before them.
#[tactic(auto, using(input_text::proofs::Reading::behind_trans))]
fn read_scaled_scripts(
    alloc: Global,
    tokens: &mut Tokens<'_>,
    candidates: u32,
) -> Result<(Scale, Scripts), InputStop>
    ensures reads { ReadsBehindLots candidates tokens.old.rest result tokens.new.rest }
    ensures behind { IsBehind tokens.old tokens.new }
{
    let scale = read_scale(tokens)?;
    let scripts = read_scripts(alloc, tokens, candidates, scale.team_follows)?;
    Ok((scale, scripts))
}

// Nothing may stand after the end.
#[tactic(auto, using(input_text::proofs::Reading::behind_trans))]
fn read_nothing(tokens: &mut Tokens<'_>) -> Result<(), InputFault>
    ensures { IsAtEnd tokens.old.rest result }
{
    match tokens.next() {
        Next::Token(token) => Err(InputFault {
            kind: FaultKind::Trailing,
            at: token.at,
        }),
        Next::End => Ok(()),
        Next::Fault(fault) => Err(fault),
    }
}
