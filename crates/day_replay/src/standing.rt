// What stood at a freeze of a history.
ghost use Rattle.std.specs.Prelude.{◌≡◌, ℕ, ◌≤◌, ◌-◌, All, IfOk, None, Some, replicate, slice_get, true};
ghost use Rattle.plain_ballots.specs.declared.limits.TheConstants.{MOST_CANDIDATES};
ghost use Rattle.batch_core.specs.declared.limits.TheConstants.{LAST_NUMBER};
ghost use Rattle.batch_core.specs.declared.entry.Entry.{Entry};
ghost use Rattle.batch_core.specs.Book.{empty};
ghost use Rattle.batch_core.specs.Histories.{IsLegal, after_all};
ghost use Rattle.day_reader.specs.Call.{is_freeze};
ghost use Rattle.day_reader.specs.Said.{IsAnswerable};
ghost use Rattle.frozen_version.specs.Versions.{StandsIn};
ghost use Rattle.day_sheets.specs.Frozen.{AreFrozen};
ghost use Rattle.day_replay.specs.Places.{ArePlaces, struck_by};

use crate::NoMemory;
use crate::frozen::Frozen;
use crate::packing::pack_placed;
use crate::places::note;
use batch_core::{
    Call, Entry, LAST_NUMBER, Reply, a_book_answers_a_history,
    a_legal_history_has_the_books_replies,
};
use call_register::History;
use frozen_plan::Plans;
use std::alloc::Global;
use std::thread::Threads;

/// What stood at the freeze that is the call of this number, from 1. No ballot of the history is copied but to be packed.
pub fn frozen_at<R: Threads + Sync>(
    rt: &R,
    alloc: Global,
    candidates: u32,
    history: &History,
    at: usize,
) -> Result<Frozen, NoMemory>
    requires candidates { candidates ≤ MOST_CANDIDATES }
    requires legal { IsLegal history.now }
    requires answerable { All (λ e. IsAnswerable candidates e.call) history.now }
    requires some { 1 ≤ at }
    requires freeze { (e : Entry) × (slice_get history.now (at - 1) ≡ Some e) × (is_freeze e.call ≡ true) }
    ensures at { IfOk result (λ version. version.at ≡ at) }
    ensures candidates { IfOk result (λ version. version.candidates ≡ candidates) }
    ensures stands { IfOk result (λ version. StandsIn version history.now) }
{
    a_book_answers_a_history();
    a_legal_history_has_the_books_replies();
    let entries = &history.entries().items()[..at - 1];
    let struck = struck_in(alloc, entries)?;
    let places = places_in(alloc, entries)?;
    let packed = pack_placed(alloc, candidates, entries, places.as_slice())?;
    let plans = Plans::of_packed(rt, alloc, packed, 1, 1)?;
    Ok(Frozen {
        at: at as u64,
        candidates,
        plans,
        struck,
    })
}

/// What stood at each freeze of a history.
pub(crate) fn versions_of<R: Threads + Sync>(
    rt: &R,
    alloc: Global,
    candidates: u32,
    history: &History,
) -> Result<Vec<Frozen>, NoMemory>
    requires candidates { candidates ≤ MOST_CANDIDATES }
    requires legal { IsLegal history.now }
    requires answerable { All (λ e. IsAnswerable candidates e.call) history.now }
    ensures { IfOk result (λ versions. AreFrozen candidates history.now versions.items) }
{
    let mut versions = Vec::new(alloc);
    for (place, entry) in history.entries().items().iter().enumerate() {
        if is_freeze(&entry.call) {
            let version = frozen_at(rt, alloc, candidates, history, place + 1)?;
            versions.push(version)?;
        }
    }
    Ok(versions)
}

/// Whether a call is a freeze.
fn is_freeze(call: &Call) -> bool
    ensures { result ≡ is_freeze call.now }
{
    matches!(call, Call::Freeze)
}

/// Where the ballots of each batch are after these calls.
fn places_in(alloc: Global, entries: &[Entry]) -> Result<Vec<Option<usize>>, NoMemory>
    requires legal { IsLegal entries.now }
    requires answerable { (candidates : ℕ) × All (λ e. IsAnswerable candidates e.call) entries.now }
    ensures { IfOk result (λ places. ArePlaces entries.now places.items) }
{
    a_book_answers_a_history();
    a_legal_history_has_the_books_replies();
    let mut places = no_places(alloc)?;
    for (place, entry) in entries.iter().enumerate() {
        note(&mut places, &entry.call, entry.reply, place);
    }
    Ok(places)
}

/// No place for each batch.
fn no_places(alloc: Global) -> Result<Vec<Option<usize>>, NoMemory>
    ensures { IfOk result (λ places. places.items ≡ replicate LAST_NUMBER None) }
{
    let mut places = Vec::new(alloc);
    for _ in 0..LAST_NUMBER {
        places.push(None)?;
    }
    Ok(places)
}

/// Who is struck by these calls, each once, in the order of their first strikes.
fn struck_in(alloc: Global, entries: &[Entry]) -> Result<Vec<u32>, NoMemory>
    requires { IsLegal entries.now }
    ensures { IfOk result (λ struck. struck.items ≡ (after_all empty entries.now).struck) }
{
    a_book_answers_a_history();
    a_legal_history_has_the_books_replies();
    let mut struck = Vec::new(alloc);
    for entry in entries {
        match struck_by(entry) {
            Some(candidate) => struck.push(candidate)?,
            None => {}
        }
    }
    Ok(struck)
}

/// The candidate whom a call struck, if it struck one.
fn struck_by(entry: &Entry) -> Option<u32>
    ensures { result ≡ struck_by entry.now.call entry.now.reply }
{
    match (&entry.call, entry.reply) {
        (Call::Strike(candidate), Reply::Struck) => Some(*candidate),
        _ => None,
    }
}
