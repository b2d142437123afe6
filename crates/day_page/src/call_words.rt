// The words of a call and of its answer, as in the text of a day.
ghost use Rattle.std.specs.Prelude.{◌≡◌, ◌≤◌, ◌++◌, ◌∷◌, decimal, length};
ghost use Rattle.day_lines.specs.EntryText.{call_text, caller_text, change_text, reply_text};

use batch_core::{Call, Change, Reply};
use line_text::Line;

/// Who calls: 0 is the clerk, another number is a team's.
pub(crate) fn caller_words(caller: u32) -> Line
    ensures { result ≡ caller_text caller }
{
    if caller == 0 {
        word(b"clerk")
    } else {
        numbered(b"team ", caller)
    }
}

/// What is called, without ballots.
pub(crate) fn call_words(call: &Call) -> Line
    ensures { result ≡ call_text call.now }
{
    match call {
        Call::Change(change) => change_words(change),
        Call::Freeze => word(b"freeze"),
        Call::Strike(candidate) => numbered(b"strike ", *candidate),
    }
}

fn change_words(change: &Change) -> Line
    ensures { result ≡ change_text change.now }
{
    match change {
        Change::Enter { batch, .. } => numbered(b"enter ", *batch),
        Change::Correct {
            batch,
            revision,
            ..
        } => revised(b"correct ", *batch, *revision),
        Change::Withdraw { batch, revision } => revised(b"withdraw ", *batch, *revision),
    }
}

/// What is answered.
pub(crate) fn reply_words(reply: Reply) -> Line
    ensures { result ≡ reply_text reply }
{
    match reply {
        Reply::Entered => word(b"entered"),
        Reply::Corrected(revision) => numbered(b"corrected ", revision),
        Reply::Withdrawn(revision) => numbered(b"withdrawn ", revision),
        Reply::Frozen => word(b"frozen"),
        Reply::Exists(revision) => numbered(b"exists ", revision),
        Reply::Unknown => word(b"unknown"),
        Reply::Gone(revision) => numbered(b"gone ", revision),
        Reply::Stale(revision) => numbered(b"stale ", revision),
        Reply::Spent => word(b"spent"),
        Reply::Struck => word(b"struck"),
        Reply::AlreadyStruck => word(b"already"),
    }
}

fn word(word: &[u8]) -> Line
    requires { length word.now ≤ 10 }
    ensures { result ≡ word.now }
{
    let mut line = Line::new();
    line.push_bytes(word);
    line
}

/// A word, which brings its space, and a number.
#[tactic(auto, using(line_text::proofs::Lengths::lengths))]
fn numbered(word: &[u8], number: u32) -> Line
    requires { length word.now ≤ 10 }
    ensures { result ≡ word.now ++ decimal number }
{
    let mut line = Line::new();
    line.push_bytes(word);
    line.push_count(number as u64);
    line
}

/// A word, which brings its space, and the numbers of a batch and of its revision.
#[tactic(auto, using(sheet_page::proofs::Rooms::rooms))]
fn revised(word: &[u8], batch: u32, revision: u32) -> Line
    requires { length word.now ≤ 10 }
    ensures { result ≡ word.now ++ decimal batch ++ 32 ∷ decimal revision }
{
    let mut line = Line::new();
    line.push_bytes(word);
    line.push_count(batch as u64);
    line.push_bytes(b" ");
    line.push_count(revision as u64);
    line
}
