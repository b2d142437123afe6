// What a treatment leaves of marks. Each law is the contract of a function with nothing to do.
ghost use Rattle.ballot_marks.specs.Laws.{RankedAreDifferent, CutLeavesAFront, PlainMarksAreRanked};
ghost use Rattle.ballot_marks.specs.Laws.{RefusalLeavesTheWhole, TreatmentsOnlyMend};

/// A ranking of marks has no candidate twice. Where whatever is not plain is cut, it is a front of the
/// candidates that the marks say. Where it is refused, it is all of them, and no rank is skipped. Marks of
/// different candidates with no rank skipped are ranked as they stand.
pub fn rankings_of_marks()
    ensures different { RankedAreDifferent }
    ensures front { CutLeavesAFront }
    ensures whole { RefusalLeavesTheWhole }
    ensures plain { PlainMarksAreRanked }
{}

/// Marks that are accepted where whatever is not plain is refused come to the same under any treatment.
pub fn treatments_only_mend()
    ensures { TreatmentsOnlyMend }
{}
