// What holds of words, ballot files and lots, whoever reads them. Each law is the contract of a function
// with nothing to do, or with nothing to do but to name the laws that it rests on.
ghost use Rattle.tool_edge.specs.Tools.{HaveOneOrder, FilesAreNotRefused, FilesAreRefusedOnce, ContestsAreNotRefused, ContestsAreRefusedOnce};

use blt_reader::{accepts_files, refuses_by_the_rule};
use lot_order::lots_laws;
use meek_words::words_have_one_lot_list;

/// Words have at most one list of lots.
pub fn words_have_one_order()
    ensures { HaveOneOrder }
{
    words_have_one_lot_list();
}

/// A ballot file that is accepted is not refused.
pub fn files_are_not_refused()
    ensures { FilesAreNotRefused }
{
    accepts_files();
    refuses_by_the_rule();
}

/// A ballot file is refused for one reason at most, at one place.
pub fn files_are_refused_once()
    ensures { FilesAreRefusedOnce }
{
    refuses_by_the_rule();
}

/// A ballot file and lots that are accepted are not refused.
pub fn contests_are_not_refused()
    ensures { ContestsAreNotRefused }
{
    accepts_files();
    refuses_by_the_rule();
}

/// A ballot file and lots are refused for one reason at most, at one place.
pub fn contests_are_refused_once()
    ensures { ContestsAreRefusedOnce }
{
    accepts_files();
    refuses_by_the_rule();
    lots_laws();
}
