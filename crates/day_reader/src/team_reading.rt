// The teams of a day.
ghost use Rattle.std.specs.Prelude.{◌≡◌, ◌<◌, false, [], Ok, OnOk, IfOk, IfErr};
ghost use Rattle.batch_core.specs.declared.limits.TheConstants.{MOST_TEAMS};
ghost use Rattle.input_text.specs.Range.{IsIn};
ghost use Rattle.input_text.specs.declared.input_stop.InputStop.TheVariants as stop;
ghost use Rattle.input_text.specs.Judged.{reads};
ghost use Rattle.input_text.specs.Reads.{IsBehind, Stops, Accepts, tokens_left};
ghost use Rattle.day_reader.specs.Call.{freezes};
ghost use Rattle.day_reader.specs.TeamTable.{TeamNumber, InTeam, as_team, stands, with_call, and_team, at_teams};
ghost use Rattle.day_reader.specs.Reads.{LeadsOrWants, next_team, ReadsScripts};

use crate::calls::read_call;
use crate::keyword::Keyword;
use crate::teams::Teams;
use crate::words::next_keyword;
use crate::{Script, Scripts};
use batch_core::{Call, Calls, MOST_TEAMS};
use input_text::{FaultKind, InputFault, InputStop, Tokens};
use std::alloc::Global;

/// All teams by rising number, up to the end. `team_follows` says whether the word of a first one
/// was taken, or the end.
#[tactic(auto, using(input_text::proofs::Reading::behind_trans))]
pub(crate) fn read_scripts(
    alloc: Global,
    tokens: &mut Tokens<'_>,
    candidates: u32,
    team_follows: bool,
) -> Result<Scripts, InputStop>
    ensures reads { ReadsScripts candidates team_follows tokens.old.rest result tokens.new.rest }
    ensures behind { IsBehind tokens.old tokens.new }
{
    let teams = read_teams(alloc, tokens, candidates, team_follows)?;
    teams.by_number()
}

#[tactic(auto, using(input_text::proofs::Reading::behind_trans))]
fn read_teams(
    alloc: Global,
    tokens: &mut Tokens<'_>,
    candidates: u32,
    team_follows: bool,
) -> Result<Teams, InputStop>
    ensures reads { LeadsOrWants (next_team candidates [] team_follows tokens.old.rest) result (λ teams. Ok (teams, tokens.new.rest)) tokens.new.rest }
    ensures behind { IsBehind tokens.old tokens.new }
{
    let mut teams = Teams::new(alloc);
    let mut more = team_follows;
    while more {
        more = read_team(alloc, tokens, candidates, &mut teams)?;
    }
    Ok(teams)
}

// A team after its word, up to the word of the next one or the end.
#[tactic(auto, using(input_text::proofs::Reading::behind_trans))]
fn read_team(
    alloc: Global,
    tokens: &mut Tokens<'_>,
    candidates: u32,
    teams: &mut Teams,
) -> Result<bool, InputStop>
    ensures reads { LeadsOrWants (reads (at_teams candidates) (TeamNumber teams.old) tokens.old.rest) result (λ more. next_team candidates teams.new more tokens.new.rest) tokens.new.rest }
    ensures fewer { OnOk result (tokens_left tokens.new < tokens_left tokens.old) }
    ensures behind { IsBehind tokens.old tokens.new }
{
    let team = read_number(tokens, teams)?;
    let mut script = Script {
        team,
        calls: Calls::new(alloc),
    };
    let mut frozen = teams.freezes();
    let more = read_calls(alloc, tokens, candidates, teams, &mut script, &mut frozen)?;
    teams.push(script, frozen)?;
    Ok(more)
}

// The number of a team.
#[tactic(auto, using(input_text::proofs::Reading::behind_trans))]
fn read_number(tokens: &mut Tokens<'_>, before: &Teams) -> Result<u32, InputFault>
    ensures number { IfOk result (λ n. Accepts (as_team before.now) tokens.old.rest n tokens.new.rest) }
    ensures in_range { IfOk result (IsIn MOST_TEAMS) }
    ensures free { IfOk result (λ n. stands before.now n ≡ false) }
    ensures fault { IfErr result (λ fault. Stops (as_team before.now) tokens.old.rest fault tokens.new.rest) }
    ensures behind { IsBehind tokens.old tokens.new }
{
    let (n, at) = tokens.next_number()?;
    if n < 1 || n > MOST_TEAMS || before.has(n) {
        return Err(InputFault::new(FaultKind::BadTeam, at));
    }
    Ok(n)
}

// The calls of a team, up to the word of the next one or the end.
#[tactic(auto, using(input_text::proofs::Reading::behind_trans))]
fn read_calls(
    alloc: Global,
    tokens: &mut Tokens<'_>,
    candidates: u32,
    before: &Teams,
    script: &mut Script,
    frozen: &mut u32,
) -> Result<bool, InputStop>
    requires { frozen.old ≡ freezes (and_team before.now script.old) }
    ensures reads { LeadsOrWants (reads (at_teams candidates) (InTeam before.now script.old) tokens.old.rest) result (λ more. next_team candidates (and_team before.now script.new) more tokens.new.rest) tokens.new.rest }
    ensures counted { OnOk result (frozen.new ≡ freezes (and_team before.now script.new)) }
    ensures team { script.new.team ≡ script.old.team }
    ensures behind { IsBehind tokens.old tokens.new }
{
    loop {
        let (keyword, at) = next_keyword(tokens)?;
        match keyword {
            Keyword::Team => {
                if before.len() >= MOST_TEAMS as usize - 1 {
                    return Err(InputStop::refused(FaultKind::BadTeam, at));
                }
                return Ok(true);
            }
            Keyword::End => return Ok(false),
            _ => {}
        }
        let call = read_call(alloc, tokens, candidates, keyword, at, frozen)?;
        add_call(script, call)?;
    }
}

fn add_call(script: &mut Script, call: Call) -> Result<(), InputStop>
    ensures added { OnOk result (script.new ≡ with_call script.old call) }
    ensures team { script.new.team ≡ script.old.team }
    ensures only_memory { IfErr result (λ why. why ≡ stop.NoMemory) }
{
    match script.calls.push(call) {
        Ok(()) => Ok(()),
        Err(_) => Err(InputStop::NoMemory),
    }
}
