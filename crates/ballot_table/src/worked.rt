// Tables worked by hand.
ghost use Rattle.ballot_table.specs.Worked.{WorkedHeads, WorkedRows, WorkedRefusals};
ghost use Rattle.ballot_table.specs.WorkedChosen.{WorkedChosen};
ghost use Rattle.ballot_table.specs.WorkedNames.{WorkedNames};
ghost use Rattle.ballot_table.specs.WorkedReports.{WorkedReports};
ghost use Rattle.ballot_table.specs.WorkedTexts.{WorkedTexts};

/// Tables worked by hand have the heads, the ballots and the faults that are defined.
pub fn worked_tables()
    ensures heads { WorkedHeads }
    ensures rows { WorkedRows }
    ensures refusals { WorkedRefusals }
{}

/// Columns worked by hand have the names that are defined.
pub fn worked_names()
    ensures { WorkedNames }
{}

/// Heads of choices worked by hand, whose columns the words name, have the columns and the faults that are defined.
pub fn worked_chosen()
    ensures { WorkedChosen }
{}

/// Texts worked by hand are refused, each at its byte, its row and its column, or are not.
pub fn worked_texts()
    ensures { WorkedTexts }
{}

/// The numbers of tables worked by hand: of rows, and of the ballots that they stand for.
pub fn worked_reports()
    ensures { WorkedReports }
{}
