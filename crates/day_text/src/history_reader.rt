// The calls of a day.
ghost use Rattle.std.specs.Prelude.{◌≡◌, ℕ, List, IfErr, IfOk, MatchResult};
ghost use Rattle.batch_core.specs.declared.entry.Entry.{Entry as Answered};
ghost use Rattle.day_reader.specs.Call.{is_freeze};
ghost use Rattle.day_lines.specs.DayText.{freeze_places};
ghost use Rattle.day_text.specs.declared.day_stop.DayStop.TheVariants.{NoMemory};
ghost use Rattle.day_text.specs.Parts.{BeginsWithCalls};
ghost use Rattle.day_text.specs.Refusal.{Stops};

use crate::DayStop;
use crate::cut::cut;
use crate::entry_reader::{is_clerks_freeze, read_entry};
use batch_core::{Call, Entries};
use std::alloc::Global;

/// The calls of a day up to the clerk's freeze, and what is after its line.
pub(crate) fn read_history(alloc: Global, text: &[u8]) -> Result<(Entries, &[u8]), DayStop>
    ensures { MatchResult result
        (λ read. BeginsWithCalls text.now read.0.items read.1.now)
        (λ stop. Stops stop ((history : List Answered) (rest : List ℕ) → ¬ (BeginsWithCalls text.now history rest))) }
{
    let mut history = Entries::new(alloc);
    let mut rest = text;
    'lines: while let Some((line, behind)) = cut(rest, b'\n') {
        let Some(entry) = read_entry(alloc, line, history.len() as u64 + 1) else {
            return Err(DayStop::Malformed);
        };
        let by_clerk = entry.caller == 0;
        let closes = is_clerks_freeze(&entry);
        let Ok(()) = history.push(entry) else {
            return Err(DayStop::NoMemory);
        };
        rest = behind;
        if closes {
            return Ok((history, rest));
        }
        if by_clerk {
            return Err(DayStop::Malformed);
        }
    }
    Err(DayStop::Malformed)
}

/// The numbers of the lines of freezes.
pub(crate) fn freeze_lines(alloc: Global, history: &Entries) -> Result<Vec<u64>, DayStop>
    ensures places { IfOk result (λ places. places.items ≡ freeze_places history.now.items) }
    ensures stop { IfErr result (λ stop. stop ≡ NoMemory) }
{
    let mut places = Vec::new(alloc);
    for at in 0..history.len() {
        if is_freeze(&history.get(at).call) {
            let Ok(()) = places.push(at as u64 + 1) else {
                return Err(DayStop::NoMemory);
            };
        }
    }
    Ok(places)
}

fn is_freeze(call: &Call) -> bool
    ensures { result ≡ is_freeze call.now }
{
    matches!(call, Call::Freeze)
}
