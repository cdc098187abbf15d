ghost use Rattle.std.specs.Prelude.{◌≡◌, option_map, IfOk, IfSome};
ghost use Rattle.clap.specs.Words.{found_of, rows_of};
ghost use Rattle.command_words.specs.Desk.{HasLimit, asks_desk, desk_by, desk_rows, is_set, runs_desk};

use crate::command::{desk_command, parse};
use crate::numbers::limit_of;
use crate::reading::{LIMIT_DEFAULT, given, given_or};
use clap::ArgMatches;
use fx_base::{NoMemory, Text};
use std::alloc::Global;

/// A live run that the words of the program `desk` ask for.
#[derive(Debug, PartialEq, Drop)]
pub struct DeskAsked {
    /// The name of the rule file.
    pub rules: Text,
    /// The most firings of each fire command, from 1 to 1,000,000.
    pub each: u64,
    /// The name of the file from which the run goes on, and to which it is saved.
    pub image: Option<Text>,
    /// The name of the rule file for which events are kept as long as it needs them too.
    pub keep: Option<Text>,
    /// Whether it answers in lines of text, and not in objects.
    pub text: bool,
}

/// What the words of the program `desk` ask for.
#[derive(Debug, PartialEq, Drop)]
pub enum DeskWords {
    Run(DeskAsked),
    /// What the words mean.
    Help,
    Version,
}

fn is_set(value: Option<&str>) -> bool
    ensures { result ≡ is_set (option_map (λ text. text.now) value.entry) }
{
    match value {
        Some(value) => value == "true",
        None => false,
    }
}

fn named(alloc: Global, name: Option<&str>) -> Result<Option<Text>, NoMemory>
    ensures { IfOk result (λ text. text ≡ option_map (λ it. it.now) name.entry) }
{
    match name {
        Some(name) => Ok(Some(Text::new(alloc, name)?)),
        None => Ok(None),
    }
}

fn asks(
    alloc: Global,
    text: bool,
    each: Option<u64>,
    image: Option<&str>,
    keep: Option<&str>,
    rules: Option<&str>,
) -> Result<Option<DeskWords>, NoMemory>
    ensures { IfOk result (λ asked. asked ≡ runs_desk (asks_desk text each (option_map (λ text. text.now) image.entry)
        (option_map (λ text. text.now) keep.entry) (option_map (λ text. text.now) rules.entry))) }
{
    match (each, rules) {
        (Some(each), Some(rules)) => Ok(Some(DeskWords::Run(DeskAsked {
            rules: Text::new(alloc, rules)?,
            each,
            image: named(alloc, image)?,
            keep: named(alloc, keep)?,
            text,
        }))),
        _ => Ok(None),
    }
}

#[tactic(auto, unfolding(crate::specs::Desk::desk_rows))]
fn asked_of(alloc: Global, matches: &ArgMatches) -> Result<Option<DeskWords>, NoMemory>
    ensures { IfOk result (λ asked. asked ≡ desk_rows (rows_of (found_of matches.now))) }
{
    if is_set(given(matches, "help")) {
        return Ok(Some(DeskWords::Help));
    }
    if is_set(given(matches, "version")) {
        return Ok(Some(DeskWords::Version));
    }
    let text = is_set(given(matches, "text"));
    let each = limit_of(given_or(matches, "limit", LIMIT_DEFAULT));
    asks(
        alloc,
        text,
        each,
        given(matches, "image"),
        given(matches, "keep"),
        given(matches, "rules"),
    )
}

/// What the words behind the own name of the program `desk` ask for, or nothing where they are refused.
#[tactic(auto, unfolding(crate::specs::Desk::desk_words, crate::specs::Desk::desk_by))]
pub fn desk_asked(alloc: Global, words: &[String]) -> Result<Option<DeskWords>, NoMemory>
    ensures asks { IfOk result (λ asked. asked ≡ desk_by words.now) }
    ensures within { IfOk result (λ asked. IfSome asked HasLimit) }
{
    let command = desk_command(alloc)?;
    match parse(command, words)? {
        Some(matches) => asked_of(alloc, &matches),
        None => Ok(None),
    }
}
