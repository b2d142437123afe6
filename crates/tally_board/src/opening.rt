// How a board begins.
ghost use Rattle.std.specs.Prelude.{◌≡◌, [], ◌++◌, ◌<◌, ◌≤◌, drop, replicate, IfOk, IfErr, IfSome};
ghost use Rattle.left_right.specs.Sides.{view as known};
ghost use Rattle.plain_ballots.specs.declared.limits.TheConstants.{MOST_CANDIDATES};
ghost use Rattle.tally_board.specs.Desk.{IsNewDesk, new_desk};
ghost use Rattle.tally_board.specs.Sight.{new_sight};
ghost use Rattle.tally_board.specs.declared.no_board.NoBoard.TheVariants.{NoPlace};

use crate::board::Board;
use crate::chronicle::Chronicle;
use crate::rule::{Look, Name, Tell};
use crate::scribe::Inner;
use crate::story::Story;
use crate::{NoBoard, NoMemory, Note, Scribe, Watcher, Watchers};
use left_right::writer::Writer;
use std::alloc::Global;
use std::snapshot::Snapshot;
use std::sync::Wait;

/// The scribe of a new board with room for so many watchers.
fn begin<R: Wait>(
    rt: &R,
    alloc: Global,
    candidates: usize,
    places: usize,
) -> Result<Scribe, NoMemory>
    requires { (0 < places) × (places ≤ 16) }
    ensures { IfOk result (λ s. s ≡ new_desk s.board candidates) }
{
    let chronicle = Chronicle::new();
    match open_writer(rt, alloc, candidates, places, &chronicle.note()) {
        Ok(writer) => Ok(Scribe {
            writer: Some(writer),
            chronicle,
        }),
        Err(stop) => Err(stop),
    }
}

/// The writer of a board without moves, which this note tells of.
fn open_writer<R: Wait>(
    rt: &R,
    alloc: Global,
    candidates: usize,
    places: usize,
    note: &Note,
) -> Result<Inner, NoMemory>
    requires places { (0 < places) × (places ≤ 16) }
    requires fresh { note.now.moves ≡ [] }
    ensures { IfOk result (λ w. IsNewDesk note.now candidates (known w.desk.place) w.desk.shown.value
        (drop w.behind w.log.items)) }
{
    let first = Board::empty(alloc, candidates, note)?;
    let second = Board::empty(alloc, candidates, note)?;
    let writer: Inner = match Writer::new(alloc, first, second, places) {
        Ok(writer) => writer,
        Err(_) => return Err(NoMemory),
    };
    let (writer, done) = writer.publish_as::<Look, R>(rt);
    if done.is_err() {
        unreachable!();
    }
    Ok(writer)
}

/// A new watcher, where there is a place for it.
fn seat(scribe: &mut Scribe) -> Option<Watcher>
    requires { scribe.old ≡ new_desk scribe.old.board scribe.old.candidates }
    ensures scribe { scribe.new ≡ scribe.old }
    ensures watcher { IfSome result (λ w. w ≡ new_sight scribe.old.board scribe.old.candidates) }
{
    match &mut scribe.writer {
        None => unreachable!(),
        Some(writer) => {
            let mut reader = writer.factory().reader().ok()?;
            reader.learn::<Name>(writer.tell::<Tell>());
            Some(Watcher {
                reader: Some(reader),
                told: scribe.chronicle.note(),
                seen: Snapshot::of(&Story::Empty),
                before: scribe.chronicle.note(),
                refused: 0,
            })
        }
    }
}

/// Puts so many new watchers after those of the list.
fn fill(scribe: &mut Scribe, list: &mut Watchers, count: u32) -> Result<(), NoBoard>
    requires { scribe.old ≡ new_desk scribe.old.board scribe.old.candidates }
    ensures scribe { scribe.new ≡ scribe.old }
    ensures list { IfOk result
        (λ _. list.new
        ≡ list.old ++ replicate count (new_sight scribe.old.board scribe.old.candidates)) }
    ensures cause { IfErr result (λ _. 0 < count) }
{
    if count == 0 {
        return Ok(());
    }
    let Some(watcher) = seat(scribe) else {
        return Err(NoBoard::NoPlace);
    };
    if list.push(watcher).is_err() {
        return Err(NoBoard::NoMemory);
    }
    fill(scribe, list, count - 1)
}

/// A board of so many candidates without ballots: its scribe, and so many watchers. After a refusal
/// nothing is left of it; to end its scribe then, the call may wait.
pub fn open_board<R: Wait>(
    rt: &R,
    alloc: Global,
    candidates: u32,
    watchers: u32,
) -> Result<(Scribe, Watchers), NoBoard>
    requires { (1 ≤ candidates) × (candidates ≤ MOST_CANDIDATES) × (watchers ≤ 16) }
    ensures scribe { IfOk result (λ t. t.0 ≡ new_desk t.0.board candidates) }
    ensures watchers { IfOk result (λ t. t.1 ≡ replicate watchers (new_sight t.0.board candidates)) }
    ensures cause { IfErr result (λ e. e ≡ NoPlace → 0 < watchers) }
{
    let places = watchers.max(1) as usize;
    let mut scribe = match begin(rt, alloc, candidates as usize, places) {
        Ok(scribe) => scribe,
        Err(_) => return Err(NoBoard::NoMemory),
    };
    let mut list = Watchers::new(alloc);
    if let Err(refusal) = fill(&mut scribe, &mut list, watchers) {
        scribe.close(rt);
        return Err(refusal);
    }
    Ok((scribe, list))
}
