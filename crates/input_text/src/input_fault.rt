// A refusal of an input.
ghost use Rattle.std.specs.Prelude.{◌≡◌};

use crate::FaultKind;

/// A refusal, and its place in the input in bytes from 0.
#[derive(Clone, Copy, Debug, PartialEq, Eq)]
pub struct InputFault {
    pub kind: FaultKind,
    pub at: usize,
}

impl InputFault {
    pub fn new(kind: FaultKind, at: usize) -> InputFault
        ensures { result ≡ record { kind = kind; at = at } }
    {
        InputFault { kind, at }
    }
}
