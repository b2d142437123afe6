// What the definitions of ballot files amount to. Each law is the contract of a function with nothing to do.
ghost use Rattle.blt_reader.specs.Said.{HasOnePoll, FollowsOpenLists, ExpectsRightly, AcceptsFiles, RefusesByTheRule, RefusesAllElse, AcceptsRolls, RefusesRollsByTheRule, ExpectsRollsRightly, ExpectsLinesRightly};

/// A list of tokens is the file of at most one election.
pub fn has_one_poll()
    ensures { HasOnePoll }
{}

/// A list of tokens can go on to a file exactly where the table refuses none of them.
pub fn follows_open_lists()
    ensures { FollowsOpenLists }
{}

/// The table expects exactly what the list before it expects.
pub fn expects_rightly()
    ensures { ExpectsRightly }
{}

/// A text says an election exactly where its tokens are a file of it.
pub fn accepts_files()
    ensures { AcceptsFiles }
{}

/// A text is refused at the first token by which its list can't go on to a file, else at the fault
/// that ends it, else at its length.
pub fn refuses_by_the_rule()
    ensures { RefusesByTheRule }
{}

/// A text that isn't refused says an election.
pub fn refuses_all_else()
    ensures { RefusesAllElse }
{}

/// The front of a text says an election exactly where it is a file up to its title.
pub fn accepts_rolls()
    ensures { AcceptsRolls }
{}

/// A text of which no front is a file up to its title is refused by the same rule.
pub fn refuses_rolls_by_the_rule()
    ensures { RefusesRollsByTheRule }
{}

/// The table of a roll expects exactly what the list before it expects.
pub fn expects_rolls_rightly()
    ensures { ExpectsRollsRightly }
{}

/// The table of ballot lines expects exactly what the lines before it expect, in whatever file they stand.
pub fn expects_lines_rightly()
    ensures { ExpectsLinesRightly }
{}
