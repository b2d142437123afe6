// The moves that the board is told of.
ghost use Rattle.std.specs.Prelude.{◌≡◌, [], ◌++◌, OnOk};
ghost use Rattle.tally_board.specs.Moves.{AllCan, totals_after};
ghost use Rattle.tally_cli.specs.LineMoves.{line_moves, moves_of, exchange};

use crate::NoMemory;
use plain_ballots::BallotLine;
use std::sync::Wait;
use tally_board::{Move, Scribe};

/// Publishes at once that the old lines go and the new ones come.
pub(crate) fn exchange<R: Wait>(
    rt: &R,
    scribe: &mut Scribe,
    old: &[BallotLine],
    new: &[BallotLine],
) -> Result<(), NoMemory>
    requires pending { scribe.old.pending ≡ [] }
    requires moves { AllCan (totals_after scribe.old.candidates scribe.old.published)
        (exchange old.now new.now) }
    ensures { OnOk result (scribe.new
        ≡ record scribe.old { published = scribe.old.published ++ exchange old.now new.now }) }
{
    append_lines(scribe, old, false)?;
    append_lines(scribe, new, true)?;
    scribe.publish(rt);
    Ok(())
}

/// Makes the moves of all these lines pending.
fn append_lines(scribe: &mut Scribe, lines: &[BallotLine], comes: bool) -> Result<(), NoMemory>
    requires { AllCan (totals_after scribe.old.candidates (scribe.old.published ++ scribe.old.pending))
        (moves_of comes lines.now) }
    ensures { OnOk result (scribe.new
        ≡ record scribe.old { pending = scribe.old.pending ++ moves_of comes lines.now }) }
{
    for line in lines {
        append_line(scribe, line, comes)?;
    }
    Ok(())
}

fn append_line(scribe: &mut Scribe, line: &BallotLine, comes: bool) -> Result<(), NoMemory>
    requires { AllCan (totals_after scribe.old.candidates (scribe.old.published ++ scribe.old.pending))
        (line_moves comes line.now) }
    ensures { OnOk result (scribe.new
        ≡ record scribe.old { pending = scribe.old.pending ++ line_moves comes line.now }) }
{
    let [candidate, ..] = line.ranking.ranks() else {
        return Ok(());
    };
    let step = Move {
        candidate: *candidate,
        ballots: line.count,
        comes,
    };
    Ok(scribe.append(step)?)
}
