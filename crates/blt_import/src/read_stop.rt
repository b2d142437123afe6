// Why an input was not read.
ghost use Rattle.std.specs.Prelude.{◌≡◌};
ghost use Rattle.blt_import.specs.declared.read_stop.ReadStop.TheVariants.{NoMemory as no_memory};

use crate::ImportFault;
use plain_ballots::NoMemory;

/// Why an input was not read: it has a fault, or memory is wanted.
#[derive(Clone, Copy)]
pub(crate) enum ReadStop {
    Fault(ImportFault),
    NoMemory,
}

impl From<NoMemory> for ReadStop {
    ghost from_gives = { λ _ stop. stop ≡ no_memory };

    fn from(_: NoMemory) -> ReadStop {
        ReadStop::NoMemory
    }
}
