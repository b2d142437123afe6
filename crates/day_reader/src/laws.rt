// What the definitions of day files amount to. Each law is the contract of a function with nothing to do
// but to call those that it rests on.
ghost use Rattle.day_reader.specs.Said.{HasOneDay, FollowsOpenLists, ExpectsRightly, AcceptsDays, RefusesByTheRule, RefusesAllElse};
ghost use Rattle.day_reader.specs.Shared.{Shared};

// What day files share with ballot files.
fn shared_parts()
    ensures { Shared }
{
    blt_reader::expects_rightly();
    blt_reader::follows_open_lists();
    blt_reader::expects_lines_rightly();
}

/// A list of tokens is the file of at most one day.
pub fn has_one_day()
    ensures { HasOneDay }
{
    shared_parts();
}

/// A list of tokens can go on to a day file exactly where the table refuses none of them.
pub fn follows_open_lists()
    ensures { FollowsOpenLists }
{
    shared_parts();
}

/// The table expects exactly what the list before it expects.
pub fn expects_rightly()
    ensures { ExpectsRightly }
{
    shared_parts();
}

/// A text says a day exactly where its tokens are a day file of it.
pub fn accepts_days()
    ensures { AcceptsDays }
{
    shared_parts();
}

/// A text is refused at the first token by which its list can't go on to a day file, else at the
/// fault that ends it, else at its length.
pub fn refuses_by_the_rule()
    ensures { RefusesByTheRule }
{
    shared_parts();
}

/// A text that isn't refused says a day.
pub fn refuses_all_else()
    ensures { RefusesAllElse }
{
    shared_parts();
}
