// Entries that stand in order, written ranking by ranking.
ghost use Rattle.std.specs.Prelude.{◌≡◌, ◌≤◌, ◌<◌, [], All, OnOk, length, slice_index_or, sum_by};
ghost use Rattle.plain_ballots.specs.declared.limits.TheConstants.{MOST_BALLOTS};
ghost use Rattle.plain_ballots.specs.Ballots.{plain};
ghost use Rattle.blt_writer.specs.Merged.{WritesLines};
ghost use Rattle.blt_writer.specs.declared.entry.Entry.{Entry};
ghost use Rattle.blt_writer.specs.Packed.{AreListed, IsEntry, IsRun, entry_lines};

use crate::entry::Entry;
use crate::packed::ranking_at;
use crate::page::Page;
use byte_edge::{Failed, Sink};

/// Writes the lines of all ballots of entries that stand in order, equal ballots in one line.
pub(crate) fn write_runs<K: Sink>(
    ranks: &[u8],
    entries: &[Entry],
    page: &mut Page,
    sink: &mut K,
) -> Result<(), Failed>
    requires sound { All (IsEntry ranks.now) entries.now }
    requires listed { AreListed (entry_lines ranks.now entries.now) }
    requires few { length (plain (entry_lines ranks.now entries.now)) ≤ MOST_BALLOTS }
    requires empty { page.old ≡ [] }
    ensures written { WritesLines K.written K.faults sink.old sink.new (plain (entry_lines ranks.now entries.now)) result }
    ensures empty { OnOk result (page.new ≡ []) }
{
    let mut rest = entries;
    while rest.len() > 0 {
        let first = entry_at(rest, 0);
        let (same, behind) = rest.split_at(run_of(ranks, rest));
        page.make_room(sink)?;
        page.add(count(same), ranking_at(ranks, first.start));
        rest = behind;
    }
    page.flush(sink)
}

/// How many entries at the front have the ranking of the first.
fn run_of(ranks: &[u8], entries: &[Entry]) -> usize
    requires sound { All (IsEntry ranks.now) entries.now }
    requires some { 1 ≤ length entries.now }
    ensures { IsRun ranks.now entries.now result }
{
    let first = entry_at(entries, 0);
    for i in 1..entries.len() {
        let entry = entry_at(entries, i);
        if !entry.is_tied(&first, ranks) {
            return i;
        }
    }
    entries.len()
}

#[inline]
fn entry_at(entries: &[Entry], i: usize) -> Entry
    requires { i < length entries.now }
    ensures { (d : Entry) → result ≡ slice_index_or entries.now i d }
{
    entries[i]
}

/// The number of ballots of entries.
fn count(entries: &[Entry]) -> u64
    requires { sum_by (λ entry. entry.count) entries.now ≤ MOST_BALLOTS }
    ensures { result ≡ sum_by (λ entry. entry.count) entries.now }
{
    let mut total = 0;
    for entry in entries {
        total += entry.count as u64;
    }
    total
}
