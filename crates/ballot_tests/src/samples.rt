// Sample ballots, as lines and packed.
ghost use Rattle.std.specs.Prelude.{◌≡◌, ◌≤◌, IfOk};
ghost use Rattle.plain_ballots.specs.declared.limits.TheConstants.{MOST_CANDIDATES};

use packed_ballots::PackedBallots;
use plain_ballots::{BallotLine, Ballots, MOST_BALLOTS, Ranking};
use std::alloc::Global;
use std::test::Fail;

/// How many ballots there are of a ranking.
pub(crate) type Line = (u32, &'static [u32]);

/// Adds a line.
fn add(alloc: Global, ballots: &mut Ballots, line: &Line) -> Result<(), Fail>
    ensures { ballots.new.candidates ≡ ballots.old.candidates }
{
    let (count, ranks) = *line;
    if count == 0 {
        return Err(Fail::from("a line without ballots"));
    }
    let ranking = Ranking::try_new(alloc, ballots.candidates(), ranks)?;
    ballots.push_line(BallotLine { count, ranking })?;
    Ok(())
}

/// So many ballots of each ranking.
pub(crate) fn ballots_of(alloc: Global, candidates: u32, lines: &[Line]) -> Result<Ballots, Fail>
    ensures { IfOk result (λ ballots. ballots.candidates ≡ candidates) }
{
    let mut ballots = Ballots::new(alloc, candidates);
    for line in lines {
        add(alloc, &mut ballots, line)?;
    }
    Ok(ballots)
}

/// Takes so many ballots of a ranking in.
pub(crate) fn take(
    alloc: Global,
    packed: &mut PackedBallots,
    count: u32,
    ranks: &[u32],
) -> Result<(), Fail>
    ensures { packed.new.candidates ≡ packed.old.candidates }
{
    let room = (MOST_BALLOTS as u64).saturating_sub(packed.total());
    if count == 0 || count as u64 > room {
        return Err(Fail::from("no ballots, or too many"));
    }
    let ranking = Ranking::try_new(alloc, packed.candidates(), ranks)?;
    let ranks = ranking.ranks();
    packed.take(count, ranks, ranks.len())?;
    Ok(())
}

/// So many ballots of each ranking, packed in this order.
pub(crate) fn packed_of(
    alloc: Global,
    candidates: u32,
    lines: &[Line],
) -> Result<PackedBallots, Fail>
    requires { candidates ≤ MOST_CANDIDATES }
    ensures { IfOk result (λ packed. packed.candidates ≡ candidates) }
{
    let mut packed = PackedBallots::new(alloc, candidates)?;
    for line in lines {
        let (count, ranks) = *line;
        take(alloc, &mut packed, count, ranks)?;
    }
    Ok(packed)
}
