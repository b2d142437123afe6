// A call of a caller.
ghost use Rattle.std.specs.Prelude.{◌≡◌, IfOk};

use crate::{Change, NoMemory};
use std::alloc::Global;

/// A call of a caller.
#[derive(Debug, Drop)]
pub enum Call {
    Change(Change),
    /// The ballots that stand now are to be counted.
    Freeze,
    /// The candidate with this number withdraws.
    Strike(u32),
}

impl Call {
    pub fn copy(&self, alloc: Global) -> Result<Call, NoMemory>
        ensures { IfOk result (λ call. call ≡ self.now) }
    {
        match self {
            Call::Change(change) => Ok(Call::Change(change.copy(alloc)?)),
            Call::Freeze => Ok(Call::Freeze),
            Call::Strike(candidate) => Ok(Call::Strike(*candidate)),
        }
    }
}
