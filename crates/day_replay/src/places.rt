// Where the ballots of each batch are among the answered calls.
ghost use Rattle.std.specs.Prelude.{◌≡◌, ℕ, [], All, IfSome, MatchOption, length};
ghost use Rattle.batch_core.specs.declared.limits.TheConstants.{LAST_NUMBER};
ghost use Rattle.batch_core.specs.Lawful.{IsOfBatch};
ghost use Rattle.day_reader.specs.Said.{IsAnswerable};
ghost use Rattle.day_replay.specs.Places.{lines_at, placed_by};

use batch_core::{Call, Change, Entry, Reply};
use plain_ballots::Ballots;

/// Notes where the ballots of a batch are after a call with this reply, whose place among the calls is this, from 0.
pub(crate) fn note(places: &mut Vec<Option<usize>>, asked: &Call, reply: Reply, place: usize)
    requires numbered { length places.old.items ≡ LAST_NUMBER }
    requires answerable { (candidates : ℕ) × IsAnswerable candidates asked.now }
    ensures { places.new.items ≡ placed_by places.old.items asked.now reply place }
{
    let Call::Change(change) = asked else {
        return;
    };
    let index = change.batch() as usize - 1;
    match reply {
        Reply::Entered | Reply::Corrected(_) => places[index] = Some(place),
        Reply::Withdrawn(_) => places[index] = None,
        _ => {}
    }
}

/// The ballots that the call at a place puts in, if it puts in any.
pub(crate) fn ballots_at(entries: &[Entry], place: Option<usize>) -> Option<&Ballots>
    ensures lines { MatchOption result (lines_at entries.now place ≡ [])
        (λ ballots. lines_at entries.now place ≡ ballots.now.lines) }
    ensures batch { (candidates : ℕ) → All (λ e. IsAnswerable candidates e.call) entries.now
        → IfSome result (λ ballots. IsOfBatch candidates ballots.now) }
{
    let entry = entries.get(place?)?;
    match &entry.call {
        Call::Change(Change::Enter { ballots, .. }) => Some(ballots),
        Call::Change(Change::Correct { ballots, .. }) => Some(ballots),
        _ => None,
    }
}
