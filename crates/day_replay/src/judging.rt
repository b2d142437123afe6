// A text judged by the day of a file.
ghost use Rattle.std.specs.Prelude.{◌≡◌, ◌≤◌, IfOk, length, map};
ghost use Rattle.day_reader.specs.Said.{AreScripts};
ghost use Rattle.sheet_check.specs.Comparison.{IsCompared};
ghost use Rattle.day_lines.specs.DayText.{IsDayText, roll_with};
ghost use Rattle.day_sheets.specs.Frozen.{AreFrozen};
ghost use Rattle.day_replay.specs.Judged.{DiffersFromNearest, IsDayVerdict, day_of};

use crate::comparing::first_difference;
use crate::frozen_sheets::{places_of, rolls_of};
use crate::standing::versions_of;
use crate::{DayVerdict, Frozen, NoMemory, follow};
use candidate_roll::Roll;
use day_lines::Terms;
use day_reader::{Day, Scripts};
use day_sheets::DayText;
use std::alloc::Global;
use std::thread::Threads;

/// The verdict on a text that is held to be the text of a day. The day's calls are made again in the order
/// that the text's lines say, for as long as there is one; what such a day writes is compared with the
/// text as it comes, and kept nowhere.
pub fn judge<R: Threads + Sync>(
    rt: &R,
    alloc: Global,
    text: &[u8],
    day: Day,
) -> Result<DayVerdict, NoMemory>
    requires scripts { AreScripts (length day.roll.names) day.scripts }
    requires lots { length day.lots ≡ length day.roll.names }
    requires places { (6 ≤ day.places) × (day.places ≤ 9) }
    ensures { IfOk result (IsDayVerdict day text.now) }
{
    let Day {
        roll,
        lots,
        places,
        omega,
        scripts,
    } = day;
    let terms = Terms {
        places,
        omega,
        roll,
        lots,
    };
    judge_by(rt, alloc, text, &terms, scripts)
}

/// The same by the day's terms and its scripts.
fn judge_by<R: Threads + Sync>(
    rt: &R,
    alloc: Global,
    text: &[u8],
    terms: &Terms,
    scripts: Scripts,
) -> Result<DayVerdict, NoMemory>
    requires scripts { AreScripts (length terms.now.roll.names) scripts }
    requires lots { length terms.now.lots ≡ length terms.now.roll.names }
    requires places { (6 ≤ terms.now.places) × (terms.now.places ≤ 9) }
    ensures { IfOk result (IsDayVerdict (day_of terms.now scripts) text.now) }
{
    let _units = terms.omega.units();
    let _order = terms.lots.candidates();
    let _candidates = terms.roll.candidates();
    match difference_in(rt, alloc, text, terms, scripts)? {
        None => Ok(DayVerdict::True),
        Some(n) => Ok(DayVerdict::False(n)),
    }
}

/// The first line in which a text differs from the text of the history of these scripts that is nearest to it.
fn difference_in<R: Threads + Sync>(
    rt: &R,
    alloc: Global,
    text: &[u8],
    terms: &Terms,
    scripts: Scripts,
) -> Result<Option<u64>, NoMemory>
    requires places { (6 ≤ terms.now.places) × (terms.now.places ≤ 9) }
    requires lots_of_all { length terms.now.lots ≡ length terms.now.roll.names }
    requires scripts { AreScripts (length terms.now.roll.names) scripts }
    ensures { IfOk result (DiffersFromNearest terms.now scripts text.now) }
{
    let candidates = terms.roll.candidates();
    let history = follow(alloc, candidates, scripts, text)?;
    let frozen = versions_of(rt, alloc, candidates, &history)?;
    let rolls = rolls_of(alloc, &terms.roll, frozen.as_slice())?;
    let places = places_of(alloc, frozen.as_slice())?;
    let due = DayText {
        history: &history,
        places: places.as_slice(),
    };
    difference_at(rt, alloc, text, terms, rolls.as_slice(), &due, frozen)
}

/// The first line in which a text differs from the text of this history at the places that the day says.
fn difference_at<R: Threads + Sync>(
    rt: &R,
    alloc: Global,
    text: &[u8],
    terms: &Terms,
    rolls: &[Roll],
    due: &DayText<'_>,
    frozen: Vec<Frozen>,
) -> Result<Option<u64>, NoMemory>
    requires places { (6 ≤ terms.now.places) × (terms.now.places ≤ 9) }
    requires lots_of_all { length terms.now.lots ≡ length terms.now.roll.names }
    requires frozen { AreFrozen (length terms.now.roll.names) due.now.history.now frozen.items }
    requires rolls { rolls.now ≡ map (λ version. roll_with terms.now.roll version.struck) frozen.items }
    requires freezes { due.now.places.now ≡ map (λ version. version.at) frozen.items }
    ensures { IfOk result (IsCompared (IsDayText terms.now due.now.history.now) text.now) }
{
    macro_rules! at_places {
        ($($at:literal)*) => {
            match terms.places {
                $($at => first_difference::<$at, R>(rt, alloc, text, terms, rolls, due, frozen),)*
                _ => unreachable!(),
            }
        };
    }
    at_places!(6 7 8 9)
}
