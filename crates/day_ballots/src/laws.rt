// What holds of every ballot file that is written for a freeze.
ghost use Rattle.day_ballots.specs.Laws.{FreezesAreCounted};

use blt_writer::texts_are_read;
use sheet_text::sheets_are_unique;

/// What is written for a freeze is a ballot file, of the freeze's roll and of the ballots that stand there; and at
/// the day's places and omega its sheet is that of the freeze.
pub fn freezes_are_counted()
    ensures { FreezesAreCounted }
{
    texts_are_read();
    sheets_are_unique();
}
