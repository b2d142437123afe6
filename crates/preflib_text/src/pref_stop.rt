// Why a text is not read.
ghost use Rattle.std.specs.Prelude.{◌≡◌};
ghost use Rattle.preflib_text.specs.declared.pref_stop.PrefStop.TheVariants.{Fault as fault, NoMemory as no_memory};

use crate::PrefFault;
use plain_ballots::NoMemory;

/// Why a text of PrefLib is not read: it is refused, or memory is wanted.
#[derive(Clone, Copy, Debug, PartialEq, Eq)]
pub enum PrefStop {
    Fault(PrefFault),
    NoMemory,
}

impl From<PrefFault> for PrefStop {
    ghost from_gives = { λ why stop. stop ≡ fault why };

    fn from(why: PrefFault) -> PrefStop {
        PrefStop::Fault(why)
    }
}

impl From<NoMemory> for PrefStop {
    ghost from_gives = { λ _ stop. stop ≡ no_memory };

    fn from(_: NoMemory) -> PrefStop {
        PrefStop::NoMemory
    }
}
