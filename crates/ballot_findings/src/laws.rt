// What holds of all files.
ghost use Rattle.ballot_findings.specs.Laws.{ApartIsTold, BreaksAreTold, FarIsTold, FirstsAreAll, FurtherAreTold, LikeNamesAreTold, NamesAreFirstStrings, OddNamesAreTold, OddTitlesAreTold, OneNameIsTold, RanksAreOfLines, ReturnsAreTold, SeatsAreSecond, SeatsAreTold, UnrankedAreTold, WithdrawnAreTold};

/// There is no line of a kind exactly where nothing of that kind wants a look; and the first preferences
/// of all candidates are those ballots that rank somebody. The call does nothing.
pub fn looks_are_owed()
    ensures one_name { OneNameIsTold }
    ensures like_names { LikeNamesAreTold }
    ensures odd_names { OddNamesAreTold }
    ensures odd_titles { OddTitlesAreTold }
    ensures seats { SeatsAreTold }
    ensures unranked { UnrankedAreTold }
    ensures withdrawn { WithdrawnAreTold }
    ensures breaks { BreaksAreTold }
    ensures further { FurtherAreTold }
    ensures apart { ApartIsTold }
    ensures far { FarIsTold }
    ensures returns { ReturnsAreTold }
    ensures firsts { FirstsAreAll }
{}

/// The tokens whose places are told are the number of seats, the names and the withdrawn candidates on the ballots
/// of the election that a file says. The call does nothing.
pub fn tokens_are_theirs()
    ensures seats { SeatsAreSecond }
    ensures names { NamesAreFirstStrings }
    ensures ranks { RanksAreOfLines }
{}
