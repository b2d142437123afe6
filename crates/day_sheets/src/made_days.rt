// Days that are made from a number.
ghost use Rattle.std.specs.Prelude.{◌≡◌, ◌≤◌, length, true, IfOk};
ghost use Rattle.input_text.specs.Scan.{scan};
ghost use Rattle.input_text.specs.Refusal.{IsAccepted};
ghost use Rattle.day_reader.specs.Day.{IsDay};
ghost use Rattle.day_reader.specs.Said.{AreScripts};
ghost use Rattle.meek_trial.specs.declared.day.TheConstants.{MOST_TRIAL};
ghost use Rattle.meek_trial.specs.Trial.{trial_day};
ghost use Rattle.day_sheets.specs.MadeDay.{MadeDaysAreDays, made_day};

use crate::NoMemory;
use blt_reader::BltStop;
use day_reader::{Day, accepts_days, read_day};
use meek_trial::make_day;
use std::alloc::Global;

/// The text of a made day is an accepted day file, the file of the made day. A law: the call does nothing.
pub fn made_days_are_days()
    ensures { MadeDaysAreDays }
{}

/// Makes the day of a number, and reads it.
pub fn read_made_day(alloc: Global, number: u32) -> Result<Day, NoMemory>
    requires { (1 ≤ number) × (number ≤ MOST_TRIAL) }
    ensures says { IfOk result (IsAccepted IsDay (scan (trial_day number) true)) }
    ensures made { IfOk result (λ day. day ≡ made_day number) }
    ensures scripts { IfOk result (λ day. AreScripts (length day.roll.names) day.scripts) }
{
    made_days_are_days();
    accepts_days();
    let Ok(text) = make_day(alloc, number) else {
        return Err(NoMemory);
    };
    match read_day(alloc, text.as_slice()) {
        Ok(day) => Ok(day),
        Err(BltStop::Fault(_)) => unreachable!(),
        Err(BltStop::NoMemory) => Err(NoMemory),
    }
}
