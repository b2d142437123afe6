// An answered call in a line.
ghost use Rattle.std.specs.Prelude.{◌≡◌, ◌≢◌, MatchBool, MatchOption};
ghost use Rattle.batch_core.specs.declared.entry.Entry.{Entry as Answered};
ghost use Rattle.day_lines.specs.EntryText.{entry_line};
ghost use Rattle.day_lines.specs.DayHistory.{clerk_freeze};
ghost use Rattle.day_text.specs.Said.{IsSaidEntry};

use crate::call_reader::{read_call, read_caller, read_reply};
use crate::number::behind_number;
use batch_core::{Call, Entry, Reply};
use std::alloc::Global;

/// The n-th answered call that a line is of.
pub(crate) fn read_entry(alloc: Global, line: &[u8], n: u64) -> Option<Entry>
    ensures { MatchOption result
        ((e : Answered) → IsSaidEntry e → line.now ≢ entry_line n e)
        (λ e. IsSaidEntry e × (line.now ≡ entry_line n e)) }
{
    let Some(rest) = behind_number(line, n) else {
        return None;
    };
    let Some((caller, rest)) = read_caller(rest) else {
        return None;
    };
    let Some((call, rest)) = read_call(alloc, rest) else {
        return None;
    };
    match read_reply(rest) {
        Some(reply) => Some(Entry {
            caller,
            call,
            reply,
        }),
        None => None,
    }
}

/// Whether an answered call is the freeze of the clerk.
pub(crate) fn is_clerks_freeze(entry: &Entry) -> bool
    ensures { MatchBool result (entry.now ≡ clerk_freeze) (entry.now ≢ clerk_freeze) }
{
    if entry.caller != 0 {
        return false;
    }
    match (&entry.call, entry.reply) {
        (Call::Freeze, Reply::Frozen) => true,
        _ => false,
    }
}
