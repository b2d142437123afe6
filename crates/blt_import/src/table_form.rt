// Inputs that are tables.
ghost use Rattle.std.specs.Prelude.{◌≡◌, ◌≤◌, IfOk, IfErr, length};
ghost use Rattle.plain_ballots.specs.declared.limits.TheConstants.{MOST_CANDIDATES};
ghost use Rattle.blt_import.specs.declared.read_stop.ReadStop.TheVariants as stops;
ghost use Rattle.blt_import.specs.Forms.{Table, named_for, table_form, with_lists};
ghost use Rattle.blt_import.specs.Faults.{fault_of};
ghost use Rattle.blt_import.specs.Owed.{IsReadStop, Reads};

use crate::ImportFault;
use crate::read::Read;
use crate::read_stop::ReadStop;
use crate::tables::{fill, without_lists};
use ballot_table::{Imported, Layout, TableAsked, TableStop, read_table};
use candidate_roll::{MOST_TITLE_BYTES, Name};
use import_words::Asked;
use std::alloc::Global;

/// What an input says as a table of this layout, or its first fault.
pub(crate) fn read_by_layout(
    alloc: Global,
    asked: &Asked,
    layout: Layout,
    input: &[u8],
) -> Result<Read, ReadStop>
    requires { length (named_for layout asked.now.roll.candidates) ≤ MOST_CANDIDATES }
    ensures { Reads (Table (table_form asked.now layout)) input.now result }
{
    let mut table = without_lists(alloc, asked, layout);
    read_by(alloc, asked, &mut table, input)
}

/// The same, by what the reader of tables is asked but for what the words list.
fn read_by(
    alloc: Global,
    asked: &Asked,
    table: &mut TableAsked,
    input: &[u8],
) -> Result<Read, ReadStop>
    requires { length (with_lists asked.now table.old).candidates ≤ MOST_CANDIDATES }
    ensures { Reads (Table (record { title = asked.now.roll.title; table = with_lists asked.now table.old })) input.now result }
{
    fill(alloc, asked, table)?;
    match read_table(alloc, table, input) {
        Ok(read) => titled(alloc, read, &asked.roll.title),
        Err(stop) => Err(stop_of(stop)),
    }
}

/// What was read of a table, which has no title, under the title of the words.
fn titled(alloc: Global, table: Imported, title: &Name<MOST_TITLE_BYTES>) -> Result<Read, ReadStop>
    ensures titled { IfOk result (λ read. read ≡ record {
      names = table.names;
      title = title.now;
      ballots = table.ballots;
      tally = table.tally;
    }) }
    ensures stop { IfErr result (λ stop. stop ≡ stops.NoMemory) }
{
    match title.copy(alloc) {
        Ok(title) => Ok(Read {
            names: table.names,
            title,
            ballots: table.ballots,
            tally: table.tally,
        }),
        Err(_) => Err(ReadStop::NoMemory),
    }
}

/// What stopped the reader of tables: a fault, or that it wants memory.
fn stop_of(stop: TableStop) -> ReadStop
    ensures { IsReadStop (fault_of stop) result }
{
    match stop {
        TableStop::Text(fault) => ReadStop::Fault(ImportFault::Text(fault)),
        TableStop::Word { kind, place } => ReadStop::Fault(ImportFault::Word { kind, place }),
        TableStop::Record {
            kind,
            at,
            row,
            column,
        } => ReadStop::Fault(ImportFault::Record {
            kind,
            at,
            row,
            column,
        }),
        TableStop::NoMemory => ReadStop::NoMemory,
    }
}
