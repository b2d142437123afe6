// Laws of every history of a day's calls.
ghost use Rattle.day_sheets.specs.Laws.{EachMadeDayHasOneSummary, SeparateTeamsEndAlike};

/// If each batch is called by one team only and no candidate is struck, the same batches stand at the end, in
/// whatever order the teams' calls are answered.
pub fn separate_teams_end_alike()
    ensures { SeparateTeamsEndAlike }
{}

/// A made day has one summary, in whatever order its teams' calls are answered.
pub fn made_days_have_one_summary()
    ensures { EachMadeDayHasOneSummary }
{}
