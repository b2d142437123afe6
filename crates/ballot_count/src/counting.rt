// A count: from the bytes of a ballot file to the sheet.
ghost use Rattle.std.specs.Prelude.{◌≡◌, ◌≤◌, List, length, IsPermutation};
ghost use Rattle.fixed_place.specs.declared.omega.TheConstants.{USUAL_OMEGA};
ghost use Rattle.tool_edge.specs.declared.opening.TheConstants.{FILE_LIMIT};
ghost use Rattle.plain_ballots.specs.declared.ballot_line.BallotLine.{BallotLine};
ghost use Rattle.plain_ballots.specs.Ballots.{plain};
ghost use Rattle.vote_spread.specs.declared.limits.TheConstants.{MOST_WORKERS};
ghost use Rattle.sheet_text.specs.Sheet.{IsSheet};
ghost use Rattle.lane_sheet.specs.Due.{WritesOrWants};
ghost use Rattle.tool_edge.specs.Streams.{writing};
ghost use Rattle.tool_edge.specs.Finishing.{FinishesOwed};
ghost use Rattle.tool_edge.specs.Tool.{IsOwedFor, no_history};
ghost use Rattle.tool_edge.specs.Tools.{over_contests};
ghost use Rattle.ballot_count.specs.Owed.{OwesSheet};

use crate::closing::end_after;
use ballot_pieces::Pieces;
use blt_reader::StoredElection;
use byte_edge::{Failed, Gate, Sink};
use fixed_place::Omega;
use lane_sheet::{Crew, NoMemory, write_sheet_in_lanes};
use packed_ballots::PackedBallots;
use sheet_text::sheets_are_unique;
use std::thread::Threads;
use tool_edge::{End, StoredContest, refuse_input};

/// Counts the ballots of a file by these lots, and writes the sheet or the refusal. The ballots are packed as
/// they are read, and the bytes are let go before anything is made of them.
pub fn count<R: Threads + Sync, G: Gate + Sync, K: Sink>(
    crew: &Crew<'_, R, G>,
    input: Vec<u8>,
    lots: &[u32],
    sink: &mut K,
) -> End
    requires shards { 1 ≤ crew.now.shards }
    requires workers { (1 ≤ crew.now.workers) × (crew.now.workers ≤ MOST_WORKERS) }
    requires short { length input.items ≤ FILE_LIMIT }
    ensures { FinishesOwed (IsOwedFor (over_contests OwesSheet) lots.now input.items no_history) result
        (writing K.written K.faults sink.old sink.new) }
{
    let pieces = Pieces::new(crew.rt, crew.workers);
    let read = StoredContest::<PackedBallots>::read_by(crew.alloc, lots, input.as_slice(), &pieces);
    drop(input);
    let contest = match read {
        Ok(contest) => contest,
        Err(stop) => return refuse_input(sink, stop),
    };
    let wrote = count_contest(crew, contest, sink);
    end_after(sink, wrote)
}

/// Deals the packed ballots out among shards, counts them in lanes, and writes the sheet: it is that of any
/// lines of the same ballots.
fn count_contest<R: Threads + Sync, G: Gate + Sync, K: Sink>(
    crew: &Crew<'_, R, G>,
    contest: StoredContest<PackedBallots>,
    sink: &mut K,
) -> Result<Result<(), Failed>, NoMemory>
    requires shards { 1 ≤ crew.now.shards }
    requires workers { (1 ≤ crew.now.workers) × (crew.now.workers ≤ MOST_WORKERS) }
    requires lots_of_all { length contest.lots ≡ length contest.election.roll.names }
    requires ballots_of_all { contest.election.ballots.candidates ≡ length contest.election.roll.names }
    ensures { (lines : List BallotLine) → IsPermutation (plain contest.election.ballots.lines) (plain lines)
        → WritesOrWants (IsSheet 9 USUAL_OMEGA (plain lines) contest.election.roll contest.lots)
        K.written K.faults sink.old sink.new result }
{
    let StoredContest {
        election: StoredElection { ballots, roll },
        lots,
    } = contest;
    sheets_are_unique();
    let omega = Omega::usual();
    let wrote = write_sheet_in_lanes::<9, R, G, K>(crew, ballots, &roll, &lots, omega, sink)?;
    Ok(wrote)
}
