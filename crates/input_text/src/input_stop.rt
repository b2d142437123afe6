// Why nothing was read.
ghost use Rattle.std.specs.Prelude.{◌≡◌};
ghost use Rattle.input_text.specs.declared.input_stop.InputStop.TheVariants.{NoMemory as no_memory, Fault as fault};

use crate::{FaultKind, InputFault};
use std::alloc::{AllocError, AllocFailed};

/// Why nothing was read: the input is refused, or memory is wanted.
#[derive(Clone, Copy, Debug, PartialEq, Eq)]
pub enum InputStop {
    Fault(InputFault),
    NoMemory,
}

impl InputStop {
    /// The refusal of an input at a place in it.
    pub fn refused(kind: FaultKind, at: usize) -> InputStop
        ensures { result ≡ fault (record { kind = kind; at = at }) }
    {
        InputStop::Fault(InputFault::new(kind, at))
    }
}

impl From<InputFault> for InputStop {
    ghost from_gives = { λ why stop. stop ≡ fault why };

    fn from(why: InputFault) -> InputStop {
        InputStop::Fault(why)
    }
}

impl From<AllocError> for InputStop {
    ghost from_gives = { λ _ stop. stop ≡ no_memory };

    fn from(_: AllocError) -> InputStop {
        InputStop::NoMemory
    }
}

impl<T: Drop> From<AllocFailed<T>> for InputStop {
    ghost from_gives = { λ _ stop. stop ≡ no_memory };

    fn from(_: AllocFailed<T>) -> InputStop {
        InputStop::NoMemory
    }
}
