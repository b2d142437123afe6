ghost use Rattle.std.specs.Prelude.{◌≡◌, IfOk, map, string_bytes};
ghost use Rattle.meek_words.specs.Forms.{HasForm};
ghost use Rattle.meek_words.specs.declared.command.Command.{Command};

use crate::spelling::is_spelled;
use crate::{Command, WordsStop, found};
use std::alloc::Global;

/// The command that the words after the program's name say.
///
/// They are first tested to be options and plain words, so that clap, which reads the options, never
/// has a text to print.
pub fn read_words(alloc: Global, words: &[String]) -> Result<Command, WordsStop>
    ensures accepted { IfOk result (HasForm (map string_bytes words.now)) }
    ensures one { (command : Command) → HasForm (map string_bytes words.now) command
        → IfOk result (λ read. read ≡ command) }
    ensures refused { result ≡ Err WordsStop.BadWords
        → (command : Command) → ¬ (HasForm (map string_bytes words.now) command) }
{
    let Some((first, behind)) = words.split_first() else {
        return Err(WordsStop::BadWords);
    };
    if !is_spelled(behind) {
        return Err(WordsStop::BadWords);
    }
    let values = found::values(alloc, behind)?;
    Command::from_values(alloc, first, values)
}
