// The text of a history: a line for each answered call.
ghost use Rattle.std.specs.Prelude.{◌≡◌, ◌+◌, ◌≤◌, ◌++◌, length, decimal, OnOk, OnErr};
ghost use Rattle.std.specs.Io.KnownBytes.{Appends};
ghost use Rattle.byte_edge.specs.Bytes.{AppendsFront};
ghost use Rattle.byte_edge.specs.Faults.{CountsFault};
ghost use Rattle.sheet_text.specs.Lines.{ended};
ghost use Rattle.day_lines.specs.EntryText.{caller_text, change_text, call_text, reply_text, entry_line, entries_text};

use batch_core::{Call, Change, Entry, Reply};
use byte_edge::{Failed, Sink, write_all};
use call_register::History;
use line_text::Line;

/// Writes a line for each answered call: its number from 1, the caller, the call and the reply. Each line is
/// handed to the sink in one piece.
pub fn write_entries<K: Sink>(history: &History, sink: &mut K) -> Result<(), Failed>
    ensures all { OnOk result (Appends (K.written sink.old) (K.written sink.new) (entries_text history.now)) }
    ensures front { OnErr result (AppendsFront (K.written sink.old) (K.written sink.new) (entries_text history.now)) }
    ensures faults { CountsFault (K.faults sink.old) (K.faults sink.new) result }
{
    let mut line = Line::new();
    for (place, entry) in history.entries().items().iter().enumerate() {
        write_entry(&mut line, place as u64 + 1, entry, sink)?;
    }
    Ok(())
}

/// Writes the line of the n-th answered call.
fn write_entry<K: Sink>(line: &mut Line, n: u64, entry: &Entry, sink: &mut K) -> Result<(), Failed>
    ensures all { OnOk result (Appends (K.written sink.old) (K.written sink.new) (ended (entry_line n entry.now))) }
    ensures front { OnErr result (AppendsFront (K.written sink.old) (K.written sink.new) (ended (entry_line n entry.now))) }
    ensures faults { CountsFault (K.faults sink.old) (K.faults sink.new) result }
{
    push_entry(line, n, entry);
    line.push_bytes(b"\n");
    write_all(sink, line.bytes())
}

#[tactic(auto, using(crate::proofs::Rooms::rooms))]
fn push_entry(line: &mut Line, n: u64, entry: &Entry)
    ensures text { line.new ≡ entry_line n entry.now }
    ensures short { length line.new ≤ 200 }
{
    line.clear();
    line.push_count(n);
    line.push_bytes(b" ");
    push_caller(line, entry.caller);
    line.push_bytes(b" ");
    push_call(line, &entry.call);
    line.push_bytes(b" ");
    push_reply(line, entry.reply);
}

/// Appends the caller: 0 is the clerk, any other number is a team's.
#[tactic(auto, using(crate::proofs::Rooms::rooms))]
fn push_caller(line: &mut Line, caller: u32)
    requires { length line.old ≤ 1000 }
    ensures text { line.new ≡ line.old ++ caller_text caller }
    ensures bound { length line.new ≤ length line.old + 30 }
{
    if caller == 0 {
        line.push_bytes(b"clerk");
    } else {
        push_numbered(line, b"team ", caller);
    }
}

/// Appends a word, whose last byte is a space, and a number.
#[tactic(auto, using(crate::proofs::Rooms::rooms))]
fn push_numbered(line: &mut Line, word: &[u8], number: u32)
    requires short { length word.now ≤ 10 }
    requires room { length line.old ≤ 1100 }
    ensures text { line.new ≡ line.old ++ (word.now ++ decimal number) }
    ensures bound { length line.new ≤ length line.old + 30 }
{
    line.push_bytes(word);
    line.push_count(number as u64);
}

#[tactic(auto, using(crate::proofs::Rooms::rooms))]
fn push_call(line: &mut Line, call: &Call)
    requires { length line.old ≤ 1000 }
    ensures text { line.new ≡ line.old ++ call_text call.now }
    ensures bound { length line.new ≤ length line.old + 60 }
{
    match call {
        Call::Change(change) => push_change(line, change),
        Call::Freeze => line.push_bytes(b"freeze"),
        Call::Strike(candidate) => push_numbered(line, b"strike ", *candidate),
    }
}

#[tactic(auto, using(crate::proofs::Rooms::rooms))]
fn push_change(line: &mut Line, change: &Change)
    requires { length line.old ≤ 1000 }
    ensures text { line.new ≡ line.old ++ change_text change.now }
    ensures bound { length line.new ≤ length line.old + 60 }
{
    match change {
        Change::Enter { batch, .. } => push_numbered(line, b"enter ", *batch),
        Change::Correct {
            batch,
            revision,
            ..
        } => {
            push_numbered(line, b"correct ", *batch);
            push_numbered(line, b" ", *revision);
        }
        Change::Withdraw { batch, revision } => {
            push_numbered(line, b"withdraw ", *batch);
            push_numbered(line, b" ", *revision);
        }
    }
}

#[tactic(auto, using(crate::proofs::Rooms::rooms))]
fn push_reply(line: &mut Line, reply: Reply)
    requires { length line.old ≤ 1000 }
    ensures text { line.new ≡ line.old ++ reply_text reply }
    ensures bound { length line.new ≤ length line.old + 30 }
{
    match reply {
        Reply::Entered => line.push_bytes(b"entered"),
        Reply::Corrected(revision) => push_numbered(line, b"corrected ", revision),
        Reply::Withdrawn(revision) => push_numbered(line, b"withdrawn ", revision),
        Reply::Frozen => line.push_bytes(b"frozen"),
        Reply::Exists(revision) => push_numbered(line, b"exists ", revision),
        Reply::Unknown => line.push_bytes(b"unknown"),
        Reply::Gone(revision) => push_numbered(line, b"gone ", revision),
        Reply::Stale(revision) => push_numbered(line, b"stale ", revision),
        Reply::Spent => line.push_bytes(b"spent"),
        Reply::Struck => line.push_bytes(b"struck"),
        Reply::AlreadyStruck => line.push_bytes(b"already"),
    }
}
