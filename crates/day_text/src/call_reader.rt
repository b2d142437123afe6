// Calls and replies in a line.
ghost use Rattle.std.specs.Prelude.{◌≡◌, ◌≢◌, ◌≤◌, ◌++◌, ◌∷◌, ℕ, List, MatchOption};
ghost use Rattle.batch_core.specs.declared.limits.TheConstants.{MOST_TEAMS};
ghost use Rattle.batch_core.specs.declared.change.Change.{Change as Changes};
ghost use Rattle.batch_core.specs.declared.call.Call.{Call as Calls};
ghost use Rattle.batch_core.specs.declared.reply.Reply.{Reply as Replies};
ghost use Rattle.batch_core.specs.Lawful.{IsInRange};
ghost use Rattle.day_lines.specs.EntryText.{caller_text, change_text, call_text, reply_text};
ghost use Rattle.day_text.specs.Said.{IsSaidChange, IsSaidCall, IsSaidReply};
ghost use Rattle.day_text.specs.Parts.{IsWordOnly, revised_text};

use crate::cut::{is_same, strip};
use crate::number::{last_number, numbered};
use batch_core::{Call, Change, LAST_NUMBER, MOST_TEAMS, Reply};
use plain_ballots::{Ballots, MOST_CANDIDATES};
use std::alloc::Global;

/// Who calls, and what is after the space that follows.
pub(crate) fn read_caller(text: &[u8]) -> Option<(u32, &[u8])>
    ensures { MatchOption result
        ((caller : ℕ) (rest : List ℕ) → caller ≤ MOST_TEAMS → text.now ≢ caller_text caller ++ 32 ∷ rest)
        (λ read. (read.0 ≤ MOST_TEAMS) × (text.now ≡ caller_text read.0 ++ 32 ∷ read.1.now)) }
{
    if let Some(rest) = strip(text, b"clerk ") {
        return Some((0, rest));
    }
    numbered(text, b"team ", MOST_TEAMS)
}

/// A call, without ballots, and what is after the space that follows.
pub(crate) fn read_call(alloc: Global, text: &[u8]) -> Option<(Call, &[u8])>
    ensures { MatchOption result
        ((call : Calls) (rest : List ℕ) → IsSaidCall call → text.now ≢ call_text call ++ 32 ∷ rest)
        (λ read. IsSaidCall read.0 × (text.now ≡ call_text read.0 ++ 32 ∷ read.1.now)) }
{
    if let Some((change, rest)) = read_change(alloc, text) {
        return Some((Call::Change(change), rest));
    }
    if let Some((candidate, rest)) = numbered(text, b"strike ", MOST_CANDIDATES) {
        return Some((Call::Strike(candidate), rest));
    }
    match strip(text, b"freeze ") {
        Some(rest) => Some((Call::Freeze, rest)),
        None => None,
    }
}

/// A change, without ballots, and what is after the space that follows.
fn read_change(alloc: Global, text: &[u8]) -> Option<(Change, &[u8])>
    ensures { MatchOption result
        ((change : Changes) (rest : List ℕ) → IsSaidChange change → text.now ≢ change_text change ++ 32 ∷ rest)
        (λ read. IsSaidChange read.0 × (text.now ≡ change_text read.0 ++ 32 ∷ read.1.now)) }
{
    if let Some((batch, rest)) = numbered(text, b"enter ", LAST_NUMBER) {
        let ballots = Ballots::new(alloc, 0);
        return Some((Change::Enter { batch, ballots }, rest));
    }
    if let Some((batch, revision, rest)) = revised(text, b"correct ") {
        let ballots = Ballots::new(alloc, 0);
        let change = Change::Correct {
            batch,
            revision,
            ballots,
        };
        return Some((change, rest));
    }
    match revised(text, b"withdraw ") {
        Some((batch, revision, rest)) => Some((Change::Withdraw { batch, revision }, rest)),
        None => None,
    }
}

/// The numbers of a batch and of its revision after a word, which brings its space, and what is after the
/// space that follows.
fn revised<'a>(text: &'a [u8], word: &[u8]) -> Option<(u32, u32, &'a [u8])>
    ensures { MatchOption result
        ((batch revision : ℕ) (rest : List ℕ) → IsInRange batch → IsInRange revision
        → text.now ≢ revised_text word.now batch revision rest)
        (λ read. IsInRange read.0 × IsInRange read.1 × (text.now ≡ revised_text word.now read.0 read.1 read.2.now)) }
{
    let Some((batch, behind)) = numbered(text, word, LAST_NUMBER) else {
        return None;
    };
    match numbered(behind, b"", LAST_NUMBER) {
        Some((revision, rest)) => Some((batch, revision, rest)),
        None => None,
    }
}

/// The reply that a text is.
pub(crate) fn read_reply(text: &[u8]) -> Option<Reply>
    ensures { MatchOption result
        ((reply : Replies) → IsSaidReply reply → text.now ≢ reply_text reply)
        (λ reply. IsSaidReply reply × (text.now ≡ reply_text reply)) }
{
    if let Some(revision) = last_number(text, b"corrected ", LAST_NUMBER) {
        return Some(Reply::Corrected(revision));
    }
    if let Some(revision) = last_number(text, b"withdrawn ", LAST_NUMBER) {
        return Some(Reply::Withdrawn(revision));
    }
    if let Some(revision) = last_number(text, b"exists ", LAST_NUMBER) {
        return Some(Reply::Exists(revision));
    }
    if let Some(revision) = last_number(text, b"gone ", LAST_NUMBER) {
        return Some(Reply::Gone(revision));
    }
    if let Some(revision) = last_number(text, b"stale ", LAST_NUMBER) {
        return Some(Reply::Stale(revision));
    }
    read_word(text)
}

/// The reply without a number that a text is.
fn read_word(text: &[u8]) -> Option<Reply>
    ensures { MatchOption result
        ((reply : Replies) → IsWordOnly reply → text.now ≢ reply_text reply)
        (λ reply. IsWordOnly reply × (text.now ≡ reply_text reply)) }
{
    if is_same(text, b"entered") {
        Some(Reply::Entered)
    } else if is_same(text, b"frozen") {
        Some(Reply::Frozen)
    } else if is_same(text, b"unknown") {
        Some(Reply::Unknown)
    } else if is_same(text, b"spent") {
        Some(Reply::Spent)
    } else if is_same(text, b"struck") {
        Some(Reply::Struck)
    } else if is_same(text, b"already") {
        Some(Reply::AlreadyStruck)
    } else {
        None
    }
}
