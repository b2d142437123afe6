// Whether a text has the form of a sheet at some number of places.
ghost use Rattle.std.specs.Prelude.{◌≤◌, IfOk, MatchBool};
ghost use Rattle.sheet_check.specs.Judged.{HasSomeForm, IsForm, IsMalformed};

use crate::NoMemory;
use sheet_reader::{SheetStop, check_form};
use std::alloc::Global;

/// Whether a text has the form of a sheet at any number of places from 6 to 9. At each number but its own a text is
/// given up at its first amount, so that one reading at most goes further.
pub(crate) fn has_some_form(alloc: Global, bytes: &[u8]) -> Result<bool, NoMemory>
    ensures { IfOk result (λ has. MatchBool has (HasSomeForm bytes.now) (IsMalformed bytes.now)) }
{
    if has_form::<9>(alloc, bytes)? {
        return Ok(true);
    }
    if has_form::<8>(alloc, bytes)? {
        return Ok(true);
    }
    if has_form::<7>(alloc, bytes)? {
        return Ok(true);
    }
    if has_form::<6>(alloc, bytes)? {
        return Ok(true);
    }
    Ok(false)
}

/// Whether a text has the form of a sheet at `P` places.
fn has_form<const P: usize>(alloc: Global, bytes: &[u8]) -> Result<bool, NoMemory>
    requires places { (6 ≤ P) × (P ≤ 9) }
    ensures { IfOk result (λ has. MatchBool has (IsForm P bytes.now) (¬ (IsForm P bytes.now))) }
{
    match check_form::<P>(alloc, bytes) {
        Ok(()) => Ok(true),
        Err(SheetStop::Malformed) => Ok(false),
        Err(SheetStop::NoMemory) => Err(NoMemory),
    }
}
