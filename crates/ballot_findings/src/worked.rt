// Files worked by hand.
ghost use Rattle.ballot_findings.specs.Worked.{FarBallots, HiddenCharacters, LongFile, ManyLines, Marks, NoBallots, OddCounts, OddNames, OddTexts, OddTitle, OldFile, OtherCharacters, PartedFile, Places, QuietFile, Ranks};

/// What is said of these files, to the byte. The call does nothing.
pub fn worked_looks()
    ensures quiet { QuietFile }
    ensures none { NoBallots }
    ensures names { OddNames }
    ensures counts { OddCounts }
    ensures marks { Marks }
    ensures hidden { HiddenCharacters }
    ensures others { OtherCharacters }
    ensures texts { OddTexts }
    ensures title { OddTitle }
    ensures far { FarBallots }
    ensures many { ManyLines }
    ensures places { Places }
    ensures parted { PartedFile }
    ensures old { OldFile }
    ensures longer { LongFile }
    ensures ranks { Ranks }
{}
