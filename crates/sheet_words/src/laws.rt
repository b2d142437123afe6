// What holds of the sentences of every sheet, and of the sheet of a count.
ghost use Rattle.sheet_words.specs.Laws.{EachHasOneFate, LosersHaveOneSentence, WinnersHaveOneSentence};

use meek_count::rows_stay_in_range;

/// Whoever an iteration elects or defeats is named by its one sentence on that. The call does nothing.
pub fn each_has_one_sentence()
    ensures winners { WinnersHaveOneSentence }
    ensures losers { LosersHaveOneSentence }
{}

/// In the sheet of a count what becomes of each candidate is said once, of an iteration or of the end,
/// before the result. The call does nothing.
pub fn each_has_one_fate()
    ensures { EachHasOneFate }
{
    rows_stay_in_range();
}
