// The calls of a team.
ghost use Rattle.std.specs.Prelude.{◌≡◌, ◌+◌, ◌<◌, ◌≤◌, ℕ, false, if◌then◌else◌, IfOk, IfErr};
ghost use Rattle.batch_core.specs.declared.call.Call.TheVariants.{Freeze};
ghost use Rattle.input_text.specs.declared.fault_kind.FaultKind.TheVariants.{TooManyFreezes};
ghost use Rattle.input_text.specs.declared.input_stop.InputStop.TheVariants as stop;
ghost use Rattle.input_text.specs.Reads.{IsBehind, Reads};
ghost use Rattle.day_reader.specs.CallTable.{EnterBatch, CorrectBatch, WithdrawBatch, StrikeCandidate, at_call};
ghost use Rattle.day_reader.specs.Call.{is_freeze};
ghost use Rattle.day_reader.specs.Reads.{ReadsCall, EndsTeam};

use crate::keyword::Keyword;
use crate::numbers::read_between;
use batch_core::{Call, Change, LAST_NUMBER, MOST_OF_BATCH};
use blt_reader::read_lines;
use input_text::{FaultKind, InputFault, InputStop, Tokens};
use std::alloc::Global;

/// At most so many freezes stand in a file.
const MOST_FREEZES: u32 = 8;

/// The call that begins with this word at this place. `frozen` counts the freezes up to it.
#[tactic(auto, using(input_text::proofs::Reading::behind_trans))]
pub(crate) fn read_call(
    alloc: Global,
    tokens: &mut Tokens<'_>,
    candidates: u32,
    keyword: Keyword,
    at: usize,
    frozen: &mut u32,
) -> Result<Call, InputStop>
    requires { ¬ EndsTeam keyword }
    ensures reads { ReadsCall candidates frozen.old keyword at tokens.old.rest result tokens.new.rest }
    ensures counted { IfOk result (λ call. frozen.new ≡ frozen.old + (if is_freeze call then 1 else 0)) }
    ensures behind { IsBehind tokens.old tokens.new }
{
    match keyword {
        Keyword::Enter => read_enter(alloc, tokens, candidates),
        Keyword::Correct => read_correct(alloc, tokens, candidates),
        Keyword::Withdraw => read_withdraw(tokens),
        Keyword::Strike => read_strike(tokens, candidates),
        Keyword::Freeze => count_freeze(at, frozen),
        _ => Err(InputStop::refused(FaultKind::WordExpected, at)),
    }
}

#[tactic(auto, using(input_text::proofs::Reading::behind_trans))]
fn read_enter(alloc: Global, tokens: &mut Tokens<'_>, candidates: u32) -> Result<Call, InputStop>
    ensures reads { Reads (at_call candidates) EnterBatch (λ call. call) tokens.old.rest result tokens.new.rest }
    ensures no_freeze { IfOk result (λ call. is_freeze call ≡ false) }
    ensures behind { IsBehind tokens.old tokens.new }
{
    let batch = read_between(tokens, 1, LAST_NUMBER, FaultKind::BadBatch)?;
    let ballots = read_lines(
        alloc,
        tokens,
        candidates,
        MOST_OF_BATCH,
        FaultKind::BatchTooLarge,
    )?;
    Ok(Call::Change(Change::Enter { batch, ballots }))
}

#[tactic(auto, using(input_text::proofs::Reading::behind_trans))]
fn read_correct(alloc: Global, tokens: &mut Tokens<'_>, candidates: u32) -> Result<Call, InputStop>
    ensures reads { Reads (at_call candidates) CorrectBatch (λ call. call) tokens.old.rest result tokens.new.rest }
    ensures no_freeze { IfOk result (λ call. is_freeze call ≡ false) }
    ensures behind { IsBehind tokens.old tokens.new }
{
    let batch = read_between(tokens, 1, LAST_NUMBER, FaultKind::BadBatch)?;
    let revision = read_between(tokens, 1, LAST_NUMBER, FaultKind::BadRevision)?;
    let ballots = read_lines(
        alloc,
        tokens,
        candidates,
        MOST_OF_BATCH,
        FaultKind::BatchTooLarge,
    )?;
    Ok(Call::Change(Change::Correct {
        batch,
        revision,
        ballots,
    }))
}

#[tactic(auto, using(input_text::proofs::Reading::behind_trans))]
fn read_withdraw(tokens: &mut Tokens<'_>) -> Result<Call, InputStop>
    ensures reads { (candidates : ℕ) → Reads (at_call candidates) WithdrawBatch (λ call. call) tokens.old.rest result tokens.new.rest }
    ensures no_freeze { IfOk result (λ call. is_freeze call ≡ false) }
    ensures behind { IsBehind tokens.old tokens.new }
{
    let batch = read_between(tokens, 1, LAST_NUMBER, FaultKind::BadBatch)?;
    let revision = read_between(tokens, 1, LAST_NUMBER, FaultKind::BadRevision)?;
    Ok(Call::Change(Change::Withdraw { batch, revision }))
}

#[tactic(auto, using(input_text::proofs::Reading::behind_trans))]
fn read_strike(tokens: &mut Tokens<'_>, candidates: u32) -> Result<Call, InputStop>
    ensures reads { Reads (at_call candidates) StrikeCandidate (λ call. call) tokens.old.rest result tokens.new.rest }
    ensures no_freeze { IfOk result (λ call. is_freeze call ≡ false) }
    ensures behind { IsBehind tokens.old tokens.new }
{
    let candidate = read_between(tokens, 1, candidates, FaultKind::NoSuchCandidate)?;
    Ok(Call::Strike(candidate))
}

fn count_freeze(at: usize, frozen: &mut u32) -> Result<Call, InputStop>
    ensures one_more { IfOk result (λ call. (call ≡ Freeze) × (frozen.old < 8) × (frozen.new ≡ frozen.old + 1)) }
    ensures full { IfErr result (λ why. (8 ≤ frozen.old) × (why ≡ stop.Fault (record { kind = TooManyFreezes; at = at }))) }
{
    if *frozen >= MOST_FREEZES {
        return Err(InputStop::Fault(InputFault {
            kind: FaultKind::TooManyFreezes,
            at,
        }));
    }
    *frozen += 1;
    Ok(Call::Freeze)
}
