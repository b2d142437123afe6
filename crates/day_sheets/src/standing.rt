// The batches that stand at the end of a history.
ghost use Rattle.std.specs.Prelude.{◌≡◌, ◌+◌, ◌≤◌};
ghost use Rattle.batch_core.specs.declared.limits.TheConstants.{LAST_NUMBER};
ghost use Rattle.batch_core.specs.Book.{empty};
ghost use Rattle.batch_core.specs.Histories.{IsLegal, after_all};
ghost use Rattle.day_sheets.specs.Standing.{HaveNumbers, come, gone};
ghost use Rattle.day_sheets.specs.Summary.{standing_batches};

use batch_core::{Entry, Reply};

/// How many batches stand after all these calls: those that were entered, without those withdrawn.
pub(crate) fn standing_batches(entries: &[Entry]) -> u64
    requires legal { IsLegal entries.now }
    requires numbers { HaveNumbers entries.now }
    ensures { result ≡ standing_batches (after_all empty entries.now) }
{
    let mut standing = 0;
    for entry in entries {
        standing = standing_then(standing, &entry.reply);
    }
    standing
}

/// How many batches stand after a call with this reply.
fn standing_then(standing: u64, reply: &Reply) -> u64
    requires few { standing ≤ LAST_NUMBER }
    requires some { gone reply.now ≤ standing }
    ensures { result + gone reply.now ≡ standing + come reply.now }
{
    match reply {
        Reply::Entered => standing + 1,
        Reply::Withdrawn(_) => standing - 1,
        _ => standing,
    }
}
