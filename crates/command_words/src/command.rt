ghost use Rattle.std.specs.Prelude.{◌≡◌, true, false, map, string_bytes, option_map, IfOk};
ghost use Rattle.clap.specs.Words.{app_of, found_of, is_simple, is_simple_and_free, rows_of, rule_of};
ghost use Rattle.command_words.specs.Command.{desk_app, flag_rule, matched_by, option_rule, positional_rule, replay_app};

use clap::error::ErrorKind;
use clap::{Arg, ArgAction, ArgMatches, Command};
use fx_base::NoMemory;
use std::alloc::Global;

fn option<'a>(alloc: Global, name: &'a str) -> Arg<'a>
    ensures rule { rule_of result ≡ option_rule name.entry.now }
    ensures local { result.global ≡ false }
{
    Arg::new(alloc, name).long(name).action(ArgAction::Set)
}

fn flag<'a>(alloc: Global, name: &'a str) -> Arg<'a>
    ensures rule { rule_of result ≡ flag_rule name.entry.now }
    ensures local { result.global ≡ false }
{
    Arg::new(alloc, name).long(name).action(ArgAction::SetTrue)
}

fn positional<'a>(alloc: Global, name: &'a str) -> Arg<'a>
    ensures rule { rule_of result ≡ positional_rule name.entry.now }
    ensures local { result.global ≡ false }
{
    Arg::new(alloc, name).action(ArgAction::Set)
}

/// The command of the program `replay`.
pub(crate) fn replay_command<'a>(alloc: Global) -> Result<Command<'a>, NoMemory>
    ensures { IfOk result (λ command. app_of command ≡ replay_app) }
{
    let command = Command::new(alloc, "replay")
        .no_binary_name(true)
        .arg(option(alloc, "mode"))?
        .arg(option(alloc, "limit"))?
        .arg(option(alloc, "gen"))?
        .arg(option(alloc, "resume"))?
        .arg(positional(alloc, "rules"))?;
    Ok(command)
}

/// The command of the program `desk`.
pub(crate) fn desk_command<'a>(alloc: Global) -> Result<Command<'a>, NoMemory>
    ensures { IfOk result (λ command. app_of command ≡ desk_app) }
{
    let command = Command::new(alloc, "desk")
        .no_binary_name(true)
        .disable_help_flag(true)
        .arg(option(alloc, "limit"))?
        .arg(option(alloc, "image"))?
        .arg(option(alloc, "keep"))?
        .arg(flag(alloc, "text"))?
        .arg(flag(alloc, "help"))?
        .arg(flag(alloc, "version"))?
        .arg(positional(alloc, "rules"))?;
    Ok(command)
}

/// What clap makes of the words by a command, or nothing where it finds a fault in them.
pub(crate) fn parse<'a>(
    command: Command<'a>,
    words: &'a [String],
) -> Result<Option<ArgMatches<'a>>, NoMemory>
    requires simple { is_simple (app_of command) ≡ true }
    requires free { is_simple_and_free (app_of command) ≡ true }
    ensures { IfOk result (λ found. option_map (λ m. rows_of (found_of m)) found ≡ matched_by (app_of command.entry) (map string_bytes words.entry.now)) }
{
    match command.try_get_matches_from(words) {
        Ok(matches) => Ok(Some(matches)),
        Err(fault) if fault.kind() == ErrorKind::OutOfMemory => Err(NoMemory),
        Err(_) => Ok(None),
    }
}
