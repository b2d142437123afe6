// Teams that a day file has named.
ghost use Rattle.std.specs.Prelude.{◌≡◌, ◌<◌, false, [], length, IfOk, IfErr, OnOk};
ghost use Rattle.batch_core.specs.declared.limits.TheConstants.{MOST_TEAMS};
ghost use Rattle.input_text.specs.Range.{IsIn};
ghost use Rattle.input_text.specs.declared.input_stop.InputStop.TheVariants as stop;
ghost use Rattle.day_reader.specs.Call.{freezes};
ghost use Rattle.day_reader.specs.Day.{AreDifferent, by_number};
ghost use Rattle.day_reader.specs.TeamTable.{stands, and_team};
ghost use Rattle.day_reader.specs.Reads.{team_numbers};

use crate::{Script, Scripts};
use input_text::InputStop;
use std::alloc::Global;
use std::marker::Model;

/// The scripts of teams with different numbers in the order of the file, and how often they freeze.
#[derive(Drop)]
pub(crate) struct Teams {
    scripts: Scripts,
    frozen: u32,
}

impl Model for Teams {
    ghost use Rattle.std.specs.Prelude.{◌≡◌, List};
    ghost use Rattle.batch_core.specs.declared.limits.TheConstants.{MOST_TEAMS};
    ghost use Rattle.day_reader.specs.declared.script.Script.{Script};
    ghost use Rattle.day_reader.specs.Call.{freezes};
    ghost use Rattle.day_reader.specs.Day.{AreDifferent};
    ghost use Rattle.day_reader.specs.Reads.{team_numbers};

    ghost Value = { List Script };

    ghost view = { λ t. t.scripts };

    ghost invariant = { λ t. AreDifferent MOST_TEAMS (team_numbers t.scripts) × (t.frozen ≡ freezes t.scripts) };
}

impl Teams {
    pub(crate) fn new(alloc: Global) -> Teams
        ensures { result ≡ [] }
    {
        Teams {
            scripts: Scripts::new(alloc),
            frozen: 0,
        }
    }

    pub(crate) fn len(&self) -> usize
        ensures { result ≡ length self.now }
    {
        self.scripts.len()
    }

    pub(crate) fn freezes(&self) -> u32
        ensures { result ≡ freezes self.now }
    {
        self.frozen
    }

    /// Whether a team has this number.
    pub(crate) fn has(&self, number: u32) -> bool
        ensures { result ≡ stands self.now number }
    {
        self.scripts
            .items()
            .iter()
            .any(|script| script.team == number)
    }

    /// Adds a team; `frozen` counts the freezes of all teams then.
    pub(crate) fn push(&mut self, script: Script, frozen: u32) -> Result<(), InputStop>
        requires number { IsIn MOST_TEAMS script.team }
        requires new { stands self.old script.team ≡ false }
        requires counted { frozen ≡ freezes (and_team self.old script) }
        ensures ok { OnOk result (self.new ≡ and_team self.old script) }
        ensures only_memory { IfErr result (λ why. why ≡ stop.NoMemory) }
    {
        match self.scripts.push(script) {
            Ok(()) => {
                self.frozen = frozen;
                Ok(())
            }
            Err(_) => Err(InputStop::NoMemory),
        }
    }

    /// The scripts by rising number.
    pub(crate) fn by_number(self) -> Result<Scripts, InputStop>
        ensures ok { IfOk result (λ scripts. scripts ≡ by_number self) }
        ensures only_memory { IfErr result (λ why. why ≡ stop.NoMemory) }
    {
        let mut scripts = self.scripts;
        scripts.sort_by_number()?;
        Ok(scripts)
    }
}
