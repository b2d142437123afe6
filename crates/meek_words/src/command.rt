ghost use Rattle.std.specs.Prelude.{IfNone, IfSome, ℕ};
ghost use Rattle.meek_words.specs.Settings.{IsSetting};
ghost use Rattle.meek_words.specs.Values.{words_in};

use crate::limits::{MOST_SHARDS, MOST_WORKERS, SHARDS, WORKERS};
use crate::numeral::numeral_up_to;
use crate::values::Values;
use crate::{LotWords, WordsStop, read_lots};
use meek_trial::MOST_TRIAL;
use std::alloc::Global;

/// What the program is asked to do.
///
/// Ballots are kept in `shards` parts, 1 to 64, and counted by `workers` threads, 1 to 32.
#[derive(Debug, Drop)]
pub enum Command {
    /// Counts one election, its ties broken by these lots.
    Count {
        lots: LotWords,
        shards: u32,
        workers: u32,
    },
    /// Plays a day of an office.
    Day {
        shards: u32,
        workers: u32,
    },
    /// Makes a day from a number of 1 to 1,000, and plays it.
    Trial {
        number: u32,
        shards: u32,
        workers: u32,
    },
}

impl Command {
    ghost use Rattle.std.specs.Prelude.{◌≡◌, IfOk};
    ghost use Rattle.meek_words.specs.Forms.{Says, first_word};
    ghost use Rattle.meek_words.specs.Values.{given_by};
    ghost use Rattle.meek_words.specs.declared.command.Command.{Command};

    /// The command of a first word and of the values after it.
    pub(crate) fn from_values(
        alloc: Global,
        first: &str,
        values: Values<'_>,
    ) -> Result<Command, WordsStop>
        ensures accepted { IfOk result (λ command.
            (first.now ≡ first_word command) × Says command (given_by values.entry)) }
        ensures refused { result ≡ Err WordsStop.BadWords → (command : Command)
            → first.now ≡ first_word command → ¬ (Says command (given_by values.entry)) }
    {
        let shards = setting(values.shards, MOST_SHARDS, SHARDS).ok_or(WordsStop::BadWords)?;
        let workers = setting(values.workers, MOST_WORKERS, WORKERS).ok_or(WordsStop::BadWords)?;
        match (first, values.lots, values.plain) {
            ("count", Some(lots), None) => Ok(Command::Count {
                lots: read_lots(alloc, lots.as_bytes())?,
                shards,
                workers,
            }),
            ("day", None, None) => Ok(Command::Day { shards, workers }),
            ("trial", None, Some(number)) => Ok(Command::Trial {
                number: numeral_up_to(MOST_TRIAL, number).ok_or(WordsStop::BadWords)?,
                shards,
                workers,
            }),
            _ => Err(WordsStop::BadWords),
        }
    }
}

/// An option's number, from 1 to the greatest, or its default where it does not stand.
fn setting(value: Option<&str>, greatest: u32, default: u32) -> Option<u32>
    ensures number { IfSome result (IsSetting greatest default (words_in value.entry)) }
    ensures none { IfNone result ((n : ℕ) → ¬ (IsSetting greatest default (words_in value.entry) n)) }
{
    match value {
        Some(word) => numeral_up_to(greatest, word),
        None => Some(default),
    }
}
