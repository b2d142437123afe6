// What holds of every verdict.
ghost use Rattle.day_replay.specs.Laws.{EachSummaryHasOneVerdict, EachTextHasOneVerdict};

/// Each text has one verdict, as the text of a day or as the summary of a made day.
pub fn verdicts_are_unique()
    ensures texts { EachTextHasOneVerdict }
    ensures summaries { EachSummaryHasOneVerdict }
{}
