// At how many places a text has the form of the text of a day.
ghost use Rattle.std.specs.Prelude.{◌≡◌, ◌≤◌, IfErr, IfOk, MatchBool, MatchResult};
ghost use Rattle.day_text.specs.declared.day_stop.DayStop.TheVariants.{NoMemory};
ghost use Rattle.day_text.specs.OwnPlaces.{HasOwnPlaces, IsDayForm, IsNoDay};
ghost use Rattle.day_text.specs.Refusal.{Stops};

use crate::{DayStop, read_day_text};
use std::alloc::Global;

/// The places of a text: the greatest number, from 6 to 9, at which it has the form of the text of a day. At each
/// number but its own a text is given up at its first amount, so that one reading at most goes further.
pub fn day_places(alloc: Global, bytes: &[u8]) -> Result<u32, DayStop>
    ensures { MatchResult result (λ places. HasOwnPlaces bytes.now places) (λ stop. Stops stop (IsNoDay bytes.now)) }
{
    if has_form::<9>(alloc, bytes)? {
        return Ok(9);
    }
    if has_form::<8>(alloc, bytes)? {
        return Ok(8);
    }
    if has_form::<7>(alloc, bytes)? {
        return Ok(7);
    }
    if has_form::<6>(alloc, bytes)? {
        return Ok(6);
    }
    Err(DayStop::Malformed)
}

/// Whether a text has the form at `P` places.
fn has_form<const P: usize>(alloc: Global, bytes: &[u8]) -> Result<bool, DayStop>
    requires places { (6 ≤ P) × (P ≤ 9) }
    ensures has { IfOk result (λ has. MatchBool has (IsDayForm P bytes.now) (¬ (IsDayForm P bytes.now))) }
    ensures stop { IfErr result (λ stop. stop ≡ NoMemory) }
{
    match read_day_text::<P>(alloc, bytes) {
        Ok(_) => Ok(true),
        Err(DayStop::Malformed) => Ok(false),
        Err(DayStop::NoMemory) => Err(DayStop::NoMemory),
    }
}
