// Whether a call of a history is a freeze.
ghost use Rattle.std.specs.Prelude.{MatchBool};
ghost use Rattle.day_ballots.specs.Along.{IsFreezeAt};

use batch_core::Call;
use call_register::History;

/// Whether the call of this number, from 1, is a freeze.
pub(crate) fn is_freeze_at(history: &History, at: u64) -> bool
    ensures { MatchBool result (IsFreezeAt history.now at) (¬ (IsFreezeAt history.now at)) }
{
    if at == 0 {
        return false;
    }
    match history.entries().items().get(at as usize - 1) {
        Some(entry) => matches!(entry.call, Call::Freeze),
        None => false,
    }
}
