// A lane's way past its gate.
ghost use Rattle.std.specs.Prelude.{◌≡◌, ◌<◌};
ghost use Rattle.vote_spread.specs.declared.limits.TheConstants.{MOST_WORKERS};

use byte_edge::{Gate, Place};

/// That a lane has passed its gate in this distribution. It is made nowhere else, and a lane counts
/// only with one in hand, so no lane works before its gate.
#[derive(Drop)]
pub(crate) struct Admission {
    /// The lane's number, from 0.
    number: usize,
}

impl Admission {
    pub(crate) fn pass<G: Gate>(gate: &G, number: usize) -> Admission
        requires { number < MOST_WORKERS }
        ensures { result.number ≡ number }
    {
        gate.pass(Place::Lane(number as u32 + 1));
        Admission { number }
    }

    pub(crate) fn number(&self) -> usize
        ensures { result ≡ self.now.number }
    {
        self.number
    }
}
