// The changes of a day, one team after the other.
ghost use Rattle.std.specs.Prelude.{◌≡◌, ◌++◌, map, All, OnOk};
ghost use Rattle.day_reader.specs.Said.{IsAnswerable};
ghost use Rattle.tally_cli.specs.Changes.{asked, change_of, changes_by, changes_of};
ghost use Rattle.tally_cli.specs.Shown.{IsShown};

use crate::NoMemory;
use crate::hall::Hall;
use batch_core::Call;
use day_reader::Script;
use std::alloc::Global;
use std::sync::Wait;

/// Makes the changes of all scripts. Strikes and freezes are passed over.
pub(crate) fn play<R: Wait>(
    rt: &R,
    alloc: Global,
    hall: &mut Hall,
    scripts: &[Script],
) -> Result<(), NoMemory>
    requires shown { IsShown hall.old }
    requires answerable { All (λ script. All (IsAnswerable hall.old.book.candidates) script.calls) scripts.now }
    ensures candidates { OnOk result (hall.new.book.candidates ≡ hall.old.book.candidates) }
    ensures shown { OnOk result (IsShown hall.new) }
    ensures entries { OnOk result (map asked hall.new.book.entries
        ≡ map asked hall.old.book.entries ++ changes_of scripts.now) }
{
    for script in scripts {
        play_script(rt, alloc, hall, script.team, script.calls.items())?;
    }
    Ok(())
}

fn play_script<R: Wait>(
    rt: &R,
    alloc: Global,
    hall: &mut Hall,
    team: u32,
    calls: &[Call],
) -> Result<(), NoMemory>
    requires shown { IsShown hall.old }
    requires answerable { All (IsAnswerable hall.old.book.candidates) calls.now }
    ensures candidates { OnOk result (hall.new.book.candidates ≡ hall.old.book.candidates) }
    ensures shown { OnOk result (IsShown hall.new) }
    ensures entries { OnOk result (map asked hall.new.book.entries
        ≡ map asked hall.old.book.entries ++ changes_by team calls.now) }
{
    for call in calls {
        play_call(rt, alloc, hall, team, call)?;
    }
    Ok(())
}

fn play_call<R: Wait>(
    rt: &R,
    alloc: Global,
    hall: &mut Hall,
    team: u32,
    call: &Call,
) -> Result<(), NoMemory>
    requires shown { IsShown hall.old }
    requires answerable { IsAnswerable hall.old.book.candidates call.now }
    ensures candidates { OnOk result (hall.new.book.candidates ≡ hall.old.book.candidates) }
    ensures shown { OnOk result (IsShown hall.new) }
    ensures entries { OnOk result (map asked hall.new.book.entries
        ≡ map asked hall.old.book.entries ++ change_of team call.now) }
{
    match call {
        Call::Change(change) => hall.make(rt, alloc, team, change),
        Call::Freeze => Ok(()),
        Call::Strike(_) => Ok(()),
    }
}
