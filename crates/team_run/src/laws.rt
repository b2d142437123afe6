// What the definitions amount to. Each law is the contract of a function with nothing to do.
ghost use Rattle.team_run.specs.Teams.{DaysMayRun};
ghost use Rattle.team_run.specs.Endings.{DaysEnd};

use shard_office::{the_clerk_has_seen_all, versions_stay};

/// The scripts of a day file can be run.
pub fn scripts_of_a_day_may_run()
    ensures { DaysMayRun }
{}

/// After the clerk's freeze nobody calls: the history is that of the scripts, and each version has
/// what is at its place.
pub fn days_end_with_the_clerk()
    ensures { DaysEnd }
{
    versions_stay();
    the_clerk_has_seen_all();
}
