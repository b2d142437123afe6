// From marks to a ranking.
ghost use Rattle.std.specs.Prelude.{◌≡◌, ◌≤◌, Some, All, IfOk, IfErr};
ghost use Rattle.plain_ballots.specs.declared.limits.TheConstants.{MOST_CANDIDATES};
ghost use Rattle.plain_ballots.specs.Ranking.{IsRanking};
ghost use Rattle.ballot_marks.specs.Marks.{SaysOneOf};
ghost use Rattle.ballot_marks.specs.Ballot.{ranked, is_closed, is_passed, is_cut, IsTreatStop};

use crate::so_far::SoFar;
use crate::{Mark, TreatStop, Treated, Treatment, Way};
use std::alloc::Global;

/// The ranking of a ballot of these marks, which stand by rising rank, and how it came about; or the first
/// mark that is refused.
pub fn treat(
    alloc: Global,
    marks: &[Mark],
    treatment: &Treatment,
    candidates: u32,
) -> Result<Treated, TreatStop>
    requires few { candidates ≤ MOST_CANDIDATES }
    requires candidates { All (λ m. SaysOneOf candidates m.says) marks.now }
    ensures ranked { IfOk result (λ treated. ranked treatment.now marks.now ≡ Some treated.ranking) }
    ensures sound { IfOk result (λ treated. IsRanking candidates treated.ranking) }
    ensures closed { IfOk result (λ treated. treated.closed ≡ is_closed treatment.now marks.now) }
    ensures passed { IfOk result (λ treated. treated.passed ≡ is_passed treatment.now marks.now) }
    ensures cut { IfOk result (λ treated. treated.cut ≡ is_cut treatment.now marks.now) }
    ensures stop { IfErr result (IsTreatStop treatment.now marks.now) }
{
    let mut so_far = SoFar::new(candidates);
    for (place, mark) in marks.iter().enumerate() {
        match so_far.judge(treatment, *mark) {
            Way::Ranked | Way::Passed => {}
            Way::Cut => return so_far.treated(alloc, true),
            Way::Refused(why) => return Err(TreatStop::Refused { place, why }),
        }
    }
    so_far.treated(alloc, false)
}
