//! Which command the words of a command line are.
ghost use Rattle.std.specs.Prelude.{◌≡◌, map, string_bytes, codes, IfOk};
ghost use Rattle.bats_words.specs.Answer.{IsAnswer};
ghost use Rattle.bats_words.specs.Options.{InRanges};
ghost use Rattle.bats_words.specs.Words.{command_of, read_by, source_of, source_names, relay_of, relay_names};
ghost use Rattle.bats_words.specs.Words.{sink_of, sink_names, check_of, check_names, show_of, show_names};
ghost use Rattle.bats_words.specs.Words.{help_of, help_names};
ghost use Rattle.bats_words.specs.steps.Named.{named};
ghost use Rattle.bats_words.specs.steps.Matched.{IsFlag, is_set, value_in, source_given, sink_given, check_given};

mod items;
mod names;
mod networks;
mod options;
mod rules;
mod values;

use crate::command::Command;
use crate::words::items::{Names, are_read};
use crate::words::names::{Name, name_of};
use crate::words::networks::{replay, trial};
use crate::words::options::{flag, number, rule, seed, workers};
use crate::words::rules::{check_rules, relay_rules, sink_rules, source_rules};
use crate::words_end::WordsEnd;
use clap::ArgMatches;
use std::alloc::Global;

/// The command that the words after the program's name are, if they are one. Its values stand in their ranges.
#[tactic(auto, unfolding(crate::specs::Words::command_of))]
pub fn parse(words: &Vec<String>) -> Result<Command, WordsEnd>
    ensures value { IsAnswer (command_of (map string_bytes words.now.items)) result }
    ensures ranges { IfOk result InRanges }
{
    let alloc = *words.allocator();
    let Some((first, rest)) = words.split_first() else {
        return Err(WordsEnd::Usage);
    };
    let Some(name) = name_of(first.as_str()) else {
        return Err(WordsEnd::Usage);
    };
    named(alloc, name, rest)
}

// The command that the words behind this name are, if they are one.
fn named(alloc: Global, name: Name, words: &[String]) -> Result<Command, WordsEnd>
    ensures { IsAnswer (named name (map string_bytes words.now)) result }
{
    match name {
        Name::Source => source(alloc, words),
        Name::Relay => relay(alloc, words),
        Name::Sink => sink(alloc, words),
        Name::Replay => replay(alloc, words),
        Name::Check => check(alloc, words),
        Name::Show => show(words),
        Name::Trial => trial(alloc, words),
        Name::Help => help(words),
    }
}

// The names of `source`.
const SOURCE: Names = Names {
    options: &["--m", "--t", "--seed", "--batches", "--table", "--from"],
    flags: &["--systematic"],
};

fn source(alloc: Global, words: &[String]) -> Result<Command, WordsEnd>
    ensures { IsAnswer (read_by source_names source_of (map string_bytes words.now)) result }
{
    if !are_read(&SOURCE, words) {
        return Err(WordsEnd::Usage);
    }
    let matches = source_rules(alloc)?.try_get_matches_from(words)?;
    source_of(&matches).ok_or(WordsEnd::Usage)
}

// The command `source` of what was found.
#[tactic(auto, unfolding(crate::specs::steps::Matched::source_given))]
fn source_of(matches: &ArgMatches) -> Option<Command>
    requires { IsFlag matches.now (codes "--systematic") }
    ensures { result ≡ source_given (value_in matches.now) (is_set matches.now) }
{
    let m = number(matches, "--m", 1, 32)?;
    let t = number(matches, "--t", 1, 2048)?;
    let seed = seed(matches, "--seed")?;
    let batches = number(matches, "--batches", 0, 32767)?;
    let table = number(matches, "--table", 0, 1)?;
    let first = number(matches, "--from", 0, 4_000_000_000)?;
    Some(Command::Source {
        m: m as u8,
        t: t as u16,
        table: table as u8,
        systematic: flag(matches, "--systematic"),
        seed,
        first: first as u32,
        batches: batches as u32,
    })
}

// The names of `relay`.
const RELAY: Names = Names {
    options: &["--seed", "--rule", "--count"],
    flags: &[],
};

fn relay(alloc: Global, words: &[String]) -> Result<Command, WordsEnd>
    ensures { IsAnswer (read_by relay_names relay_of (map string_bytes words.now)) result }
{
    if !are_read(&RELAY, words) {
        return Err(WordsEnd::Usage);
    }
    let matches = relay_rules(alloc)?.try_get_matches_from(words)?;
    relay_of(&matches).ok_or(WordsEnd::Usage)
}

// The command `relay` of what was found.
#[tactic(auto, unfolding(crate::specs::Words::relay_of))]
fn relay_of(matches: &ArgMatches) -> Option<Command>
    ensures { result ≡ relay_of (value_in matches.now) (is_set matches.now) }
{
    let seed = seed(matches, "--seed")?;
    let extra = rule(matches, "--rule")?;
    let count = number(matches, "--count", 0, 64)?;
    Some(Command::Relay {
        seed,
        extra,
        count: count as u32,
    })
}

// The names of `sink`.
const SINK: Names = Names {
    options: &["--workers"],
    flags: &["--both"],
};

fn sink(alloc: Global, words: &[String]) -> Result<Command, WordsEnd>
    ensures { IsAnswer (read_by sink_names sink_of (map string_bytes words.now)) result }
{
    if !are_read(&SINK, words) {
        return Err(WordsEnd::Usage);
    }
    let matches = sink_rules(alloc)?.try_get_matches_from(words)?;
    sink_of(&matches).ok_or(WordsEnd::Usage)
}

// The command `sink` of what was found.
#[tactic(auto, unfolding(crate::specs::steps::Matched::sink_given))]
fn sink_of(matches: &ArgMatches) -> Option<Command>
    requires { IsFlag matches.now (codes "--both") }
    ensures { result ≡ sink_given (value_in matches.now) (is_set matches.now) }
{
    let workers = workers(matches)?;
    Some(Command::Sink {
        workers,
        both: flag(matches, "--both"),
    })
}

// The names of `check`.
const CHECK: Names = Names {
    options: &["--workers"],
    flags: &[],
};

fn check(alloc: Global, words: &[String]) -> Result<Command, WordsEnd>
    ensures { IsAnswer (read_by check_names check_of (map string_bytes words.now)) result }
{
    if !are_read(&CHECK, words) {
        return Err(WordsEnd::Usage);
    }
    let matches = check_rules(alloc)?.try_get_matches_from(words)?;
    check_of(&matches).ok_or(WordsEnd::Usage)
}

// The command `check` of what was found.
#[tactic(auto, unfolding(crate::specs::steps::Matched::check_given))]
fn check_of(matches: &ArgMatches) -> Option<Command>
    ensures { result ≡ check_given (value_in matches.now) (is_set matches.now) }
{
    let workers = workers(matches)?;
    Some(Command::Check { workers })
}

// `show` has no names.
const SHOW: Names = Names {
    options: &[],
    flags: &[],
};

fn show(words: &[String]) -> Result<Command, WordsEnd>
    ensures { IsAnswer (read_by show_names show_of (map string_bytes words.now)) result }
{
    if !are_read(&SHOW, words) {
        return Err(WordsEnd::Usage);
    }
    Ok(Command::Show)
}

// `help` has no names.
const HELP: Names = Names {
    options: &[],
    flags: &[],
};

fn help(words: &[String]) -> Result<Command, WordsEnd>
    ensures { IsAnswer (read_by help_names help_of (map string_bytes words.now)) result }
{
    if !are_read(&HELP, words) {
        return Err(WordsEnd::Usage);
    }
    Ok(Command::Help)
}
