// The day file after a text.
ghost use Rattle.std.specs.Prelude.{◌≡◌, ◌≤◌, length, IfOk};
ghost use Rattle.input_text.specs.Reads.{IfFault};
ghost use Rattle.day_reader.specs.Said.{AreScripts};
ghost use Rattle.day_audit.specs.DayFile.{IsDayFile, IsRefusedDayFile};

use blt_reader::{BltStop, FaultKind};
use day_reader::{Day, read_day};
use std::alloc::Global;
use tool_edge::DAY_LIMIT;

/// Reads the day file after a text: Ok where it has no refusal, with the day that it says. A file that is longer
/// than a day file may be is not read at all.
pub fn read_day_file(alloc: Global, file: &[u8]) -> Result<Day, BltStop>
    ensures says { IfOk result (IsDayFile file.now) }
    ensures refused { IfFault result (IsRefusedDayFile file.now) }
    ensures scripts { IfOk result (λ day. AreScripts (length day.roll.names) day.scripts) }
    ensures lots { IfOk result (λ day. length day.lots ≡ length day.roll.names) }
    ensures places { IfOk result (λ day. (6 ≤ day.places) × (day.places ≤ 9)) }
{
    if file.len() > DAY_LIMIT {
        return Err(BltStop::refused(FaultKind::TooLong, DAY_LIMIT));
    }
    read_day(alloc, file)
}

/// Reads a whole day file, as [`read_day_file`] does, and lets its bytes go.
pub fn read_whole_day(alloc: Global, file: Vec<u8>) -> Result<Day, BltStop>
    ensures says { IfOk result (IsDayFile file.items) }
    ensures refused { IfFault result (IsRefusedDayFile file.items) }
    ensures scripts { IfOk result (λ day. AreScripts (length day.roll.names) day.scripts) }
    ensures lots { IfOk result (λ day. length day.lots ≡ length day.roll.names) }
    ensures places { IfOk result (λ day. (6 ≤ day.places) × (day.places ≤ 9)) }
{
    read_day_file(alloc, file.as_slice())
}
