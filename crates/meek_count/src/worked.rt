// Counts worked by hand.
ghost use Rattle.meek_count.specs.Worked.{ThreeIterations, AtSixPlaces, SampleElection};
ghost use Rattle.meek_count.specs.WorkedLoneBallot.{LoneBallot};

/// Whole counts worked by hand are those defined.
pub fn worked_counts()
    ensures three_iterations { ThreeIterations }
    ensures at_six_places { AtSixPlaces }
    ensures sample_election { SampleElection }
    ensures lone_ballot { LoneBallot }
{}
