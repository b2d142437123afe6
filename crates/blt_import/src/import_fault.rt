// Why an input is refused.
ghost use Rattle.std.specs.Prelude.{◌≡◌, ◌≤◌, length};
ghost use Rattle.blt_import.specs.Faults.{import_refusals, pref_line, record_line, word_line};

use crate::kinds::{pref_word, table_word, text_word};
use ballot_table::TableKind;
use blt_reader::InputFault;
use line_text::Line;
use preflib_text::PrefFault;
use table_text::TextFault;
use tool_edge::Fault;

/// Why an input that should be a table or a text of PrefLib is refused, and where: the byte from 0, the record and the
/// field from 1.
#[derive(Clone, Copy, Debug, PartialEq, Eq)]
pub enum ImportFault {
    /// It has more bytes than so many, the most that are read.
    TooLong(usize),
    /// It is no table.
    Text(TextFault),
    /// One of the words fits no column or no candidate: its place among its like, from 1.
    Word {
        kind: TableKind,
        place: usize,
    },
    /// A record is at fault.
    Record {
        kind: TableKind,
        at: usize,
        row: u32,
        column: u32,
    },
    /// It is no text of PrefLib: the line and the byte of the line from 1.
    Preflib(PrefFault),
}

impl Fault for ImportFault {
    ghost refusals = { import_refusals };

    fn line(&self) -> Line {
        match *self {
            ImportFault::TooLong(most) => InputFault::too_long(most).line(),
            ImportFault::Text(fault) => record_line(
                text_word(fault.kind),
                fault.at as u64,
                u64::from(fault.row),
                u64::from(fault.column),
            ),
            ImportFault::Word { kind, place } => word_line(table_word(kind), place),
            ImportFault::Record {
                kind,
                at,
                row,
                column,
            } => record_line(
                table_word(kind),
                at as u64,
                u64::from(row),
                u64::from(column),
            ),
            ImportFault::Preflib(fault) => pref_line(fault),
        }
    }

    fn too_long(most: usize) -> ImportFault {
        ImportFault::TooLong(most)
    }
}

fn pref_line(fault: PrefFault) -> Line
    ensures { result ≡ pref_line fault }
{
    match fault {
        PrefFault::Line {
            kind,
            at,
            row,
            column,
        } => record_line(pref_word(kind), at as u64, row as u64, column as u64),
        PrefFault::Word { kind, place } => word_line(pref_word(kind), place),
    }
}

/// The line of a fault of the words.
fn word_line(word: &[u8], place: usize) -> Line
    requires { length word.now ≤ 20 }
    ensures { result ≡ word_line word.now place }
{
    let mut line = Line::new();
    line.push_bytes(b"refused ");
    line.push_bytes(word);
    line.push_bytes(b" at ");
    line.push_count(place as u64);
    line.push_bytes(b"\n");
    line
}

/// The line of a fault at a byte, in a field of a record or in a line of a text.
fn record_line(word: &[u8], at: u64, row: u64, column: u64) -> Line
    requires { length word.now ≤ 20 }
    ensures { result ≡ record_line word.now at row column }
{
    let mut line = Line::new();
    line.push_bytes(b"refused ");
    line.push_bytes(word);
    line.push_bytes(b" at ");
    line.push_count(at);
    line.push_bytes(b" row ");
    line.push_count(row);
    line.push_bytes(b" column ");
    line.push_count(column);
    line.push_bytes(b"\n");
    line
}
