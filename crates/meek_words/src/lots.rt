ghost use Rattle.std.specs.Prelude.{◌≡◌, ℕ, List, IfOk};
ghost use Rattle.meek_words.specs.Numerals.{IsLotList};

use crate::numeral::numeral;
use crate::{LotWords, WordsStop};
use plain_ballots::MOST_CANDIDATES;
use std::alloc::Global;

/// How many lots a list has at most, as many as an election has candidates.
pub(crate) const MOST_LOTS: usize = MOST_CANDIDATES as usize;

/// The numbers of one word that is a list of lots.
///
/// Whether they are an order of somebody's candidates is left to the caller.
pub fn read_lots(alloc: Global, word: &[u8]) -> Result<LotWords, WordsStop>
    ensures accepted { IfOk result (IsLotList word.now) }
    ensures one { (lots : List ℕ) → IsLotList word.now lots → IfOk result (λ read. read ≡ lots) }
    ensures refused { result ≡ Err WordsStop.BadWords
        → (lots : List ℕ) → ¬ (IsLotList word.now lots) }
{
    let mut lots = LotWords::new(alloc);
    for part in word.split(|byte| *byte == b',') {
        let Some(number) = numeral(part) else {
            return Err(WordsStop::BadWords);
        };
        if lots.len() == MOST_LOTS {
            return Err(WordsStop::BadWords);
        }
        lots.push(number)?;
    }
    Ok(lots)
}
