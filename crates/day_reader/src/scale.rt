// The places and omega of a day.
ghost use Rattle.std.specs.Prelude.{IfOk, IfErr};
ghost use Rattle.fixed_place.specs.declared.omega.TheConstants.{MOST_OMEGA};
ghost use Rattle.input_text.specs.Reads.{IsBehind, Stops, Accepts};
ghost use Rattle.day_reader.specs.CallTable.{as_between};
ghost use Rattle.day_reader.specs.Reads.{BeginsTeam, ReadsPlaces, ReadsScale};

use crate::keyword::Keyword;
use crate::numbers::read_between;
use crate::words::next_keyword;
use fixed_place::Omega;
use input_text::{FaultKind, InputFault, Tokens};

/// The places after the point, omega, and whether a team follows them or
/// the end.
#[derive(Clone, Copy)]
pub(crate) struct Scale {
    pub places: u32,
    pub omega: Omega,
    pub team_follows: bool,
}

/// What is between the lots and the number of the first team, or the end.
#[tactic(auto, using(input_text::proofs::Reading::behind_trans))]
pub(crate) fn read_scale(tokens: &mut Tokens<'_>) -> Result<Scale, InputFault>
    ensures reads { ReadsScale tokens.old.rest result tokens.new.rest }
    ensures behind { IsBehind tokens.old tokens.new }
{
    let (keyword, at) = next_keyword(tokens)?;
    match keyword {
        Keyword::Places => read_places(tokens),
        _ => Ok(Scale {
            places: 9,
            omega: Omega::usual(),
            team_follows: begins_team(keyword, at)?,
        }),
    }
}

#[tactic(auto, using(input_text::proofs::Reading::behind_trans))]
fn read_places(tokens: &mut Tokens<'_>) -> Result<Scale, InputFault>
    ensures reads { ReadsPlaces tokens.old.rest result tokens.new.rest }
    ensures behind { IsBehind tokens.old tokens.new }
{
    let places = read_between(tokens, 6, 9, FaultKind::BadPlaces)?;
    let (keyword, at) = next_keyword(tokens)?;
    let Keyword::Omega = keyword else {
        return Err(InputFault::new(FaultKind::WordExpected, at));
    };
    let omega = read_omega(tokens)?;
    let (keyword, at) = next_keyword(tokens)?;
    Ok(Scale {
        places,
        omega,
        team_follows: begins_team(keyword, at)?,
    })
}

/// An omega. Units of which there are none, or too many, are refused.
#[tactic(auto, using(input_text::proofs::Reading::behind_trans))]
fn read_omega(tokens: &mut Tokens<'_>) -> Result<Omega, InputFault>
    ensures number { IfOk result (λ n. Accepts (as_between 1 MOST_OMEGA FaultKind.BadOmega) tokens.old.rest n tokens.new.rest) }
    ensures fault { IfErr result (λ fault. Stops (as_between 1 MOST_OMEGA FaultKind.BadOmega) tokens.old.rest fault tokens.new.rest) }
    ensures behind { IsBehind tokens.old tokens.new }
{
    let (units, at) = tokens.next_number()?;
    match Omega::new(units) {
        Some(omega) => Ok(omega),
        None => Err(InputFault::new(FaultKind::BadOmega, at)),
    }
}

/// Whether the word is a team's, where it may be the end besides.
fn begins_team(keyword: Keyword, at: usize) -> Result<bool, InputFault>
    ensures { BeginsTeam keyword at result }
{
    match keyword {
        Keyword::Team => Ok(true),
        Keyword::End => Ok(false),
        _ => Err(InputFault::new(FaultKind::WordExpected, at)),
    }
}
