// What is found at a line of a text.
ghost use Rattle.std.specs.Prelude.{IfErr, OnOk};
ghost use Rattle.day_ballots.specs.Found.{IsFound, IsNotFound};

use crate::BallotsFault;
use crate::calls::first_other;
use crate::freezes::is_freeze_at;
use call_register::History;

/// Whether the text has the lines of all calls up to this number, and the last of them is a freeze.
pub(crate) fn find(text: &[u8], history: &History, at: u64) -> Result<(), BallotsFault>
    ensures found { OnOk result (IsFound at text.now history.now) }
    ensures not_found { IfErr result (IsNotFound at text.now history.now) }
{
    if let Some(line) = first_other(text, history, at) {
        return Err(BallotsFault::False(line));
    }
    if is_freeze_at(history, at) {
        Ok(())
    } else {
        Err(BallotsFault::NoFreeze(at))
    }
}
