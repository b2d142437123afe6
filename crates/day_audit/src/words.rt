// The words of an audit.
ghost use Rattle.std.specs.Prelude.{map, string_bytes};
ghost use Rattle.tool_edge.specs.Words.{IsAsked};
ghost use Rattle.day_audit.specs.Words.{TakesAudit};

use crate::AuditAsked;
use meek_trial::MOST_TRIAL;
use meek_words::WordsStop;
use number_word::takes_number;
use std::alloc::Global;

/// What words ask for: no words, or just `--trial` and the number of a made day.
pub(crate) fn takes_audit(alloc: Global, words: &[String]) -> Result<AuditAsked, WordsStop>
    ensures { IsAsked TakesAudit (map string_bytes words.now) result }
{
    if words.is_empty() {
        return Ok(AuditAsked::Day);
    }
    match takes_number(alloc, words, "--trial", MOST_TRIAL) {
        Ok(number) => Ok(AuditAsked::Trial(number)),
        Err(stop) => Err(stop),
    }
}
