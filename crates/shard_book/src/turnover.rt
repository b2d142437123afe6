// How a shard's trie follows a change.
ghost use Rattle.std.specs.Prelude.{◌≡◌, ◌+◌, ◌≤◌, ◌++◌, length, true, Some, is_some, IsPermutation};
ghost use Rattle.plain_ballots.specs.declared.limits.TheConstants.{MOST_BALLOTS};
ghost use Rattle.plain_ballots.specs.Ballots.{ballot_count, plain};
ghost use Rattle.batch_core.specs.Book.{ballots_of};
ghost use Rattle.ranking_trie.specs.BallotBag.{Holds};
ghost use Rattle.ranking_trie.specs.Lines.{rank_count, visit_count};
ghost use Rattle.shard_book.specs.Rows.{call_ballots, ballots_at, lines_at};
ghost use Rattle.shard_book.specs.Turnover.{brought, is_done, if_done, AreOf, AreExchanged};

use batch_core::{Call, Change, Entries, Entry, Reply};
use plain_ballots::{Ballots, Steps};
use ranking_trie::{Trie, ranks_of};
use std::sync::ledger::Ledger;

/// Lets the trie follow a change with this reply, whose batch has its ballots in the entry at this
/// place. A change that was not carried out leaves the trie as it is.
pub(crate) fn follow<L: Ledger>(
    trie: &mut Trie,
    entries: &Entries,
    place: Option<usize>,
    change: &Change,
    reply: Reply,
    steps: &mut Steps<L>,
)
    requires place { is_some (ballots_at entries.now.items place) ≡ is_some place }
    requires candidates { AreOf trie.old.candidates (ballots_of change.now) }
    requires held { is_done reply ≡ true →
        Holds trie.old.ballots (plain (lines_at entries.now.items place)) }
    requires room { rank_count (brought change.now) ≤ trie.old.spare }
    requires few { is_done reply ≡ true →
        length trie.old.ballots + ballot_count (brought change.now)
        ≤ MOST_BALLOTS + ballot_count (lines_at entries.now.items place) }
    ensures candidates { trie.new.candidates ≡ trie.old.candidates }
    ensures exchanged { AreExchanged trie.old.ballots
        (plain (if_done reply (lines_at entries.now.items place)))
        (plain (if_done reply (brought change.now))) trie.new.ballots }
    ensures cost { steps.new ≡ steps.old
        + visit_count (if_done reply (lines_at entries.now.items place))
        + visit_count (if_done reply (brought change.now)) }
{
    if is_done(reply) {
        exchange(trie, entries, place, change, steps);
    }
}

/// Whether the change was carried out.
pub(crate) fn is_done(reply: Reply) -> bool
    ensures { result ≡ is_done reply }
{
    match reply {
        Reply::Entered => true,
        Reply::Corrected(_) => true,
        Reply::Withdrawn(_) => true,
        _ => false,
    }
}

/// Takes the ballots of the entry at this place out, and puts those of a change in.
fn exchange<L: Ledger>(
    trie: &mut Trie,
    entries: &Entries,
    place: Option<usize>,
    change: &Change,
    steps: &mut Steps<L>,
)
    requires place { is_some (ballots_at entries.now.items place) ≡ is_some place }
    requires candidates { AreOf trie.old.candidates (ballots_of change.now) }
    requires held { Holds trie.old.ballots (plain (lines_at entries.now.items place)) }
    requires room { rank_count (brought change.now) ≤ trie.old.spare }
    requires few { length trie.old.ballots + ballot_count (brought change.now)
        ≤ MOST_BALLOTS + ballot_count (lines_at entries.now.items place) }
    ensures candidates { trie.new.candidates ≡ trie.old.candidates }
    ensures exchanged { AreExchanged trie.old.ballots
        (plain (lines_at entries.now.items place))
        (plain (brought change.now)) trie.new.ballots }
    ensures cost { steps.new ≡ steps.old
        + visit_count (lines_at entries.now.items place)
        + visit_count (brought change.now) }
{
    take_out(trie, entries, place, steps);
    put_in(trie, change, steps);
}

/// Takes the ballots of the entry at this place out, if there is one.
fn take_out<L: Ledger>(
    trie: &mut Trie,
    entries: &Entries,
    place: Option<usize>,
    steps: &mut Steps<L>,
)
    requires place { is_some (ballots_at entries.now.items place) ≡ is_some place }
    requires held { Holds trie.old.ballots (plain (lines_at entries.now.items place)) }
    ensures candidates { trie.new.candidates ≡ trie.old.candidates }
    ensures bag { IsPermutation trie.old.ballots
        (plain (lines_at entries.now.items place) ++ trie.new.ballots) }
    ensures total { length trie.old.ballots
        ≡ length trie.new.ballots + ballot_count (lines_at entries.now.items place) }
    ensures room { trie.old.spare ≤ trie.new.spare }
    ensures cost { steps.new ≡ steps.old + visit_count (lines_at entries.now.items place) }
{
    if let Some(place) = place {
        trie.remove(ballots_in(entries.get(place)), steps);
    }
}

/// Puts the ballots of a change in, if it has any.
fn put_in<L: Ledger>(trie: &mut Trie, change: &Change, steps: &mut Steps<L>)
    requires candidates { AreOf trie.old.candidates (ballots_of change.now) }
    requires room { rank_count (brought change.now) ≤ trie.old.spare }
    requires few { length trie.old.ballots + ballot_count (brought change.now) ≤ MOST_BALLOTS }
    ensures candidates { trie.new.candidates ≡ trie.old.candidates }
    ensures bag { IsPermutation trie.new.ballots
        (plain (brought change.now) ++ trie.old.ballots) }
    ensures cost { steps.new ≡ steps.old + visit_count (brought change.now) }
{
    match change {
        Change::Enter { ballots, .. } => trie.add(ballots, steps),
        Change::Correct { ballots, .. } => trie.add(ballots, steps),
        Change::Withdraw { .. } => {}
    }
}

/// The room that a change wants in a trie.
pub(crate) fn ranks_in(change: &Change) -> usize
    ensures { result ≡ rank_count (brought change.now) }
{
    match change {
        Change::Enter { ballots, .. } => ranks_of(ballots),
        Change::Correct { ballots, .. } => ranks_of(ballots),
        Change::Withdraw { .. } => 0,
    }
}

/// The ballots that an entry put in.
pub(crate) fn ballots_in(entry: &Entry) -> &Ballots
    requires { is_some (call_ballots entry.now.call) ≡ true }
    ensures { Some result.now ≡ call_ballots entry.now.call }
{
    match &entry.call {
        Call::Change(Change::Enter { ballots, .. }) => ballots,
        Call::Change(Change::Correct { ballots, .. }) => ballots,
        _ => unreachable!(),
    }
}
