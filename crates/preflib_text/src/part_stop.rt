// Why a part is not taken.
ghost use Rattle.std.specs.Prelude.{◌≡◌};
ghost use Rattle.preflib_text.specs.declared.part_stop.PartStop.TheVariants.{NoMemory as no_memory};

use crate::PrefKind;
use plain_ballots::NoMemory;

/// Why a part is not taken: it can't stand where it does, or memory is wanted.
#[derive(Clone, Copy)]
pub(crate) enum PartStop {
    Fault(PrefKind),
    NoMemory,
}

impl From<NoMemory> for PartStop {
    ghost from_gives = { λ _ stop. stop ≡ no_memory };

    fn from(_: NoMemory) -> PartStop {
        PartStop::NoMemory
    }
}
