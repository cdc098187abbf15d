ghost use Rattle.std.specs.Prelude.{◌≡◌, option_map, IfOk, IfSome};
ghost use Rattle.clap.specs.Words.{found_of, rows_of, first_of};
ghost use Rattle.command_words.specs.Asked.{IsWithinBounds, mode_of, given_or, asks_file, asks_resumed, asks_load, asked_rows, asked_by};

use crate::command::{parse, replay_command};
use crate::numbers::{limit_of, load_number_of};
use crate::{Asked, Mode};
use clap::ArgMatches;
use fx_base::{NoMemory, Text};
use std::alloc::Global;

/// The mode where the words give none.
const MODE_DEFAULT: &str = "run";

/// The limit of firings where the words give none.
pub(crate) const LIMIT_DEFAULT: &str = "100000";

fn mode_of(name: &str) -> Option<Mode>
    ensures { result ≡ mode_of name.now }
{
    match name {
        "run" => Some(Mode::Run),
        "check" => Some(Mode::Check),
        "lives" => Some(Mode::Lives),
        "proof" => Some(Mode::Proof),
        "save" => Some(Mode::Save),
        _ => None,
    }
}

/// What an option was given.
pub(crate) fn given<'a>(matches: &ArgMatches<'a>, name: &str) -> Option<&'a str>
    ensures { option_map (λ text. text.now) result ≡ first_of name.now (rows_of (found_of matches.now)) }
{
    matches.get_str(name)
}

/// What an option was given, or its default.
pub(crate) fn given_or<'a>(matches: &ArgMatches<'a>, name: &str, default: &'a str) -> &'a str
    ensures { result.now ≡ given_or name.now default.entry.now (rows_of (found_of matches.now)) }
{
    given(matches, name).unwrap_or(default)
}

// A rule file, in each mode.
fn rule_file(
    alloc: Global,
    mode: Option<Mode>,
    limit: Option<u64>,
    name: Option<&str>,
) -> Result<Option<Asked>, NoMemory>
    ensures { IfOk result (λ asked. asked ≡ asks_file mode limit (option_map (λ text. text.now) name.entry)) }
{
    match (mode, limit, name) {
        (Some(mode), Some(limit), Some(name)) => Ok(Some(Asked::RuleFile {
            name: Text::new(alloc, name)?,
            mode,
            limit,
            image: None,
        })),
        _ => Ok(None),
    }
}

// A rule file and an image, in a mode that runs a script.
fn resumed(
    alloc: Global,
    mode: Option<Mode>,
    limit: Option<u64>,
    name: Option<&str>,
    image: &str,
) -> Result<Option<Asked>, NoMemory>
    ensures { IfOk result (λ asked. asked ≡ asks_resumed mode limit (option_map (λ text. text.now) name.entry) image.now) }
{
    match (mode, limit, name) {
        (Some(Mode::Run), Some(limit), Some(name)) => Ok(Some(Asked::RuleFile {
            name: Text::new(alloc, name)?,
            mode: Mode::Run,
            limit,
            image: Some(Text::new(alloc, image)?),
        })),
        (Some(Mode::Save), Some(limit), Some(name)) => Ok(Some(Asked::RuleFile {
            name: Text::new(alloc, name)?,
            mode: Mode::Save,
            limit,
            image: Some(Text::new(alloc, image)?),
        })),
        _ => Ok(None),
    }
}

// The run over a load, without a rule file.
fn load(mode: Option<Mode>, limit: Option<u64>, name: Option<&str>, text: &str) -> Option<Asked>
    ensures { result ≡ asks_load mode limit (option_map (λ text. text.now) name.entry) text.now }
{
    match (mode, limit, name) {
        (Some(Mode::Run), Some(limit), None) => {
            let number = load_number_of(text)?;
            Some(Asked::Load { number, limit })
        }
        _ => None,
    }
}

#[tactic(auto, unfolding(crate::specs::Asked::asked_rows))]
fn asked_of(alloc: Global, matches: &ArgMatches) -> Result<Option<Asked>, NoMemory>
    ensures { IfOk result (λ asked. asked ≡ asked_rows (rows_of (found_of matches.now))) }
{
    let mode = mode_of(given_or(matches, "mode", MODE_DEFAULT));
    let limit = limit_of(given_or(matches, "limit", LIMIT_DEFAULT));
    match (given(matches, "gen"), given(matches, "resume")) {
        (None, None) => rule_file(alloc, mode, limit, given(matches, "rules")),
        (None, Some(image)) => resumed(alloc, mode, limit, given(matches, "rules"), image),
        (Some(text), None) => Ok(load(mode, limit, given(matches, "rules"), text)),
        (Some(_), Some(_)) => Ok(None),
    }
}

/// What the words behind the program's own name ask for, or nothing where they are refused.
#[tactic(auto, unfolding(crate::specs::Asked::asked_words, crate::specs::Asked::asked_by))]
pub fn asked(alloc: Global, words: &[String]) -> Result<Option<Asked>, NoMemory>
    ensures asks { IfOk result (λ asked. asked ≡ asked_by words.now) }
    ensures within { IfOk result (λ asked. IfSome asked IsWithinBounds) }
{
    let command = replay_command(alloc)?;
    match parse(command, words)? {
        Some(matches) => asked_of(alloc, &matches),
        None => Ok(None),
    }
}
