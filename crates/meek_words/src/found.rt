//! The values as clap finds them, once it is known that clap takes the words.
ghost use Rattle.std.specs.Prelude.{◌≡◌, IfErr, IfOk, List, false, map, string_bytes};
ghost use Rattle.clap.specs.Walk.{rule_of};
ghost use Rattle.clap.specs.Simple.{app_of, with_rule};
ghost use Rattle.meek_words.specs.Parts.{AreParts, AreSpelled, Part, given_of};
ghost use Rattle.meek_words.specs.Values.{given_by};
ghost use Rattle.meek_words.specs.ClapCommand.{option_rule, plain_rule, bare, command_line, three_options};

use crate::WordsStop;
use crate::values::Values;
use clap::error::ErrorKind;
use clap::{Arg, ArgAction, Command};
use std::alloc::{AllocError, Global};

fn option<'a>(alloc: Global, name: &'a str) -> Arg<'a>
    ensures rule { rule_of result ≡ option_rule name.entry.now }
    ensures local { result.global ≡ false }
{
    Arg::new(alloc, name).long(name).action(ArgAction::Set)
}

fn plain_word<'a>(alloc: Global) -> Arg<'a>
    ensures rule { rule_of result ≡ plain_rule }
    ensures local { result.global ≡ false }
{
    Arg::new(alloc, "plain").action(ArgAction::Set)
}

/// No options, and neither help nor version.
fn nothing<'a>(alloc: Global) -> Command<'a>
    ensures { app_of result ≡ bare }
{
    Command::new(alloc, "meek")
        .no_binary_name(true)
        .disable_help_flag(true)
        .disable_version_flag(true)
}

fn with_option<'a>(
    alloc: Global,
    command: Command<'a>,
    name: &'a str,
) -> Result<Command<'a>, AllocError>
    ensures { IfOk result (λ added. app_of added ≡ with_rule (app_of command.entry) (option_rule name.entry.now)) }
{
    command.arg(option(alloc, name))
}

/// The three options.
fn options<'a>(alloc: Global) -> Result<Command<'a>, AllocError>
    ensures { IfOk result (λ command. app_of command ≡ three_options) }
{
    let command = with_option(alloc, nothing(alloc), "lots")?;
    let command = with_option(alloc, command, "shards")?;
    with_option(alloc, command, "workers")
}

/// The three options, and one plain word.
fn command<'a>(alloc: Global) -> Result<Command<'a>, AllocError>
    ensures { IfOk result (λ command. app_of command ≡ command_line) }
{
    let command = options(alloc)?;
    command.arg(plain_word(alloc))
}

/// The values of words that are options and plain words, as clap finds them.
///
/// clap takes all such words, so that only memory can be wanting.
pub(crate) fn values<'a>(alloc: Global, words: &'a [String]) -> Result<Values<'a>, WordsStop>
    requires { AreSpelled (map string_bytes words.now) }
    ensures found { IfOk result (λ values. (parts : List Part)
        → AreParts (map string_bytes words.entry.now) parts → given_by values ≡ given_of parts) }
    ensures memory { IfErr result (λ stop. stop ≡ WordsStop.NoMemory) }
{
    match command(alloc)?.try_get_matches_from(words) {
        Ok(matches) => Ok(Values {
            lots: matches.get_str("lots"),
            shards: matches.get_str("shards"),
            workers: matches.get_str("workers"),
            plain: matches.get_str("plain"),
        }),
        Err(error) => match error.kind() {
            ErrorKind::OutOfMemory => Err(WordsStop::NoMemory),
            _ => unreachable!(),
        },
    }
}
