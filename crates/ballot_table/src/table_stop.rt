// Why a table is refused, and where.
use crate::TableKind;
use plain_ballots::NoMemory;
use table_text::{TextFault, TextStop};

/// Why a table is refused, and where.
#[derive(Clone, Copy, Debug, PartialEq, Eq)]
pub enum TableStop {
    /// The text is no table.
    Text(TextFault),
    /// One of the words fits no column or no candidate: its place among its like, from 1.
    Word {
        kind: TableKind,
        place: usize,
    },
    /// A record is at fault: the byte from 0, the record and the field from 1.
    Record {
        kind: TableKind,
        at: usize,
        row: u32,
        column: u32,
    },
    NoMemory,
}

impl From<NoMemory> for TableStop {
    fn from(_: NoMemory) -> TableStop {
        TableStop::NoMemory
    }
}

impl From<TextFault> for TableStop {
    fn from(why: TextFault) -> TableStop {
        TableStop::Text(why)
    }
}

impl From<TextStop> for TableStop {
    fn from(stop: TextStop) -> TableStop {
        match stop {
            TextStop::Fault(why) => TableStop::Text(why),
            TextStop::NoMemory => TableStop::NoMemory,
        }
    }
}
