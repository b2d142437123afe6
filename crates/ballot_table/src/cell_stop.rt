// Why a cell was not taken in.
ghost use Rattle.std.specs.Prelude.{◌≡◌};
ghost use Rattle.ballot_table.specs.declared.cell_stop.CellStop.TheVariants.{Fault as fault, NoMemory as no_memory};

use crate::TableKind;
use plain_ballots::NoMemory;

/// Why a cell was not taken in: its text is at fault, or memory is wanted.
#[derive(Clone, Copy)]
pub(crate) enum CellStop {
    Fault(TableKind),
    NoMemory,
}

impl From<TableKind> for CellStop {
    ghost from_gives = { λ kind stop. stop ≡ fault kind };

    fn from(kind: TableKind) -> CellStop {
        CellStop::Fault(kind)
    }
}

impl From<NoMemory> for CellStop {
    ghost from_gives = { λ _ stop. stop ≡ no_memory };

    fn from(_: NoMemory) -> CellStop {
        CellStop::NoMemory
    }
}
