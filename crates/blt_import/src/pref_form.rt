// Inputs that are texts of PrefLib.
ghost use Rattle.std.specs.Prelude.{◌≡◌};
ghost use Rattle.blt_import.specs.Forms.{Preflib, said_title, text_of};
ghost use Rattle.blt_import.specs.Owed.{Reads, stop_of_text};
ghost use Rattle.blt_import.specs.Report.{tally_of_orders};
ghost use Rattle.std.specs.Option.{option_map};

use crate::ImportFault;
use crate::read::Read;
use crate::read_stop::ReadStop;
use ballot_table::Tally;
use candidate_roll::{MOST_TITLE_BYTES, Name};
use import_words::Asked;
use preflib_text::{Imported, PrefAsked, PrefStop, Tally as OrderTally, read_preflib};
use std::alloc::Global;

/// What an input says as a text of PrefLib, or its first fault.
pub(crate) fn read_text(alloc: Global, asked: &Asked, input: &[u8]) -> Result<Read, ReadStop>
    ensures { Reads (Preflib (text_of asked.now)) input.now result }
{
    match read_preflib(alloc, &text_of(asked), input) {
        Ok(text) => Ok(read_of(text)),
        Err(stop) => Err(stop_of(stop)),
    }
}

/// What the words say of a text of PrefLib.
fn text_of(asked: &Asked) -> PrefAsked<'_>
    ensures { result ≡ text_of asked.now }
{
    PrefAsked {
        title: said_title(&asked.roll.title),
        withdrawn: asked.roll.withdrawn.items(),
        equal: asked.treatment.equal,
    }
}

/// The title that the words give, in place of the text's; an empty one is none.
fn said_title(title: &Name<MOST_TITLE_BYTES>) -> Option<&Name<MOST_TITLE_BYTES>>
    ensures { option_map (λ said. said.now) result ≡ said_title title.now }
{
    if title.bytes().is_empty() {
        return None;
    }
    Some(title)
}

fn read_of(text: Imported) -> Read
    ensures { result ≡ record {
      names = text.names;
      title = text.title;
      ballots = text.ballots;
      tally = tally_of_orders text.tally;
    } }
{
    Read {
        names: text.names,
        title: text.title,
        ballots: text.ballots,
        tally: tally_of(text.tally),
    }
}

/// What became of orders, as of the rows of a table. No order stands for no ballot, and none has skipped ranks.
fn tally_of(tally: OrderTally) -> Tally
    ensures { result ≡ tally_of_orders tally }
{
    Tally {
        rows: u64::from(tally.orders),
        dropped: 0,
        ballots: u64::from(tally.ballots),
        empty: u64::from(tally.empty),
        closed: 0,
        passed: u64::from(tally.passed),
        cut: u64::from(tally.cut),
    }
}

fn stop_of(stop: PrefStop) -> ReadStop
    ensures { result ≡ stop_of_text stop }
{
    match stop {
        PrefStop::Fault(fault) => ReadStop::Fault(ImportFault::Preflib(fault)),
        PrefStop::NoMemory => ReadStop::NoMemory,
    }
}
