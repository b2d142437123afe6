// What holds of every table. Each law is the contract of a function with nothing to do.
ghost use Rattle.ballot_table.specs.Laws.{FaultOrTable, RecordsHaveNoOrder, RowsHaveNoOrder, TreatmentsOnlyMend};
ghost use Rattle.ballot_table.specs.Layouts.{ChoicesSayRankings, ListsSayRankings, RanksSayRankings};

/// A head and rows have a fault, or they are a table whose rows all have a ranking, and not both.
pub fn fault_or_table()
    ensures { FaultOrTable }
{}

/// Rows in another order stand for the same ballots, in another order.
pub fn rows_have_no_order()
    ensures { RowsHaveNoOrder }
{}

/// Records in another order below the same head are a table too, which stands for the same ballots, in another
/// order.
pub fn records_have_no_order()
    ensures { RecordsHaveNoOrder }
{}

/// What is accepted where whatever is not plain is refused, rows of blank fields too, is the same table of
/// the same ballots under any treatment.
pub fn tables_are_only_mended()
    ensures { TreatmentsOnlyMend }
{
    ballot_marks::treatments_only_mend();
}

/// Rows that say rankings are a table of just these ballots, in each layout: of names by rank, of lists of names, and
/// of ranks by candidate, whatever texts the names and the ranks have. So tables of the same ballots agree.
pub fn layouts_agree()
    ensures choices { ChoicesSayRankings }
    ensures lists { ListsSayRankings }
    ensures ranks { RanksSayRankings }
{
    ballot_marks::rankings_of_marks();
}
