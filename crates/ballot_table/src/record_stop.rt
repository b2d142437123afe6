// Why a record was not read.
ghost use Rattle.std.specs.Prelude.{◌≡◌};
ghost use Rattle.ballot_table.specs.declared.record_stop.RecordStop.TheVariants.{Fault as fault};
ghost use Rattle.ballot_table.specs.declared.record_stop.RecordStop.TheVariants.{NoMemory as no_memory};

use crate::fault::Fault;
use plain_ballots::NoMemory;

/// Why a record was not read: it has a fault, or memory is wanted.
#[derive(Clone, Copy)]
pub(crate) enum RecordStop {
    Fault(Fault),
    NoMemory,
}

impl From<Fault> for RecordStop {
    ghost from_gives = { λ why stop. stop ≡ fault why };

    fn from(why: Fault) -> RecordStop {
        RecordStop::Fault(why)
    }
}

impl From<NoMemory> for RecordStop {
    ghost from_gives = { λ _ stop. stop ≡ no_memory };

    fn from(_: NoMemory) -> RecordStop {
        RecordStop::NoMemory
    }
}
