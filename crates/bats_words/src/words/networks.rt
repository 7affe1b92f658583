//! The commands that play a network: one by a script, one by a chain of relays that lose packets.
ghost use Rattle.std.specs.Prelude.{◌≡◌, map, string_bytes, codes};
ghost use Rattle.bats_words.specs.Answer.{IsAnswer};
ghost use Rattle.bats_words.specs.Words.{read_by, replay_of, replay_names, trial_of, trial_names};
ghost use Rattle.bats_words.specs.steps.Matched.{IsFlag, is_set, value_in, replay_given, trial_given};

use crate::command::Command;
use crate::words::items::{Names, are_read};
use crate::words::options::{flag, number, workers};
use crate::words::rules::{replay_rules, trial_rules};
use crate::words_end::WordsEnd;
use clap::ArgMatches;
use std::alloc::Global;

// The names of `replay`.
const REPLAY: Names = Names {
    options: &["--workers"],
    flags: &["--both", "--pool"],
};

/// The command `replay` that the words after its name are, if they are one.
pub(crate) fn replay(alloc: Global, words: &[String]) -> Result<Command, WordsEnd>
    ensures { IsAnswer (read_by replay_names replay_of (map string_bytes words.now)) result }
{
    if !are_read(&REPLAY, words) {
        return Err(WordsEnd::Usage);
    }
    let matches = replay_rules(alloc)?.try_get_matches_from(words)?;
    replay_of(&matches).ok_or(WordsEnd::Usage)
}

// The command `replay` of what was found.
#[tactic(auto, unfolding(crate::specs::steps::Matched::replay_given))]
fn replay_of(matches: &ArgMatches) -> Option<Command>
    requires both { IsFlag matches.now (codes "--both") }
    requires pool { IsFlag matches.now (codes "--pool") }
    ensures { result ≡ replay_given (value_in matches.now) (is_set matches.now) }
{
    let workers = workers(matches)?;
    let both = flag(matches, "--both");
    let pool = flag(matches, "--pool");
    if both && pool {
        return None;
    }
    Some(Command::Replay {
        workers,
        both,
        pool,
    })
}

// The names of `trial`.
const TRIAL: Names = Names {
    options: &[
        "--number",
        "--m",
        "--t",
        "--length",
        "--batches",
        "--relays",
        "--loss",
        "--table",
        "--workers",
    ],
    flags: &[],
};

/// The command `trial` that the words after its name are, if they are one.
pub(crate) fn trial(alloc: Global, words: &[String]) -> Result<Command, WordsEnd>
    ensures { IsAnswer (read_by trial_names trial_of (map string_bytes words.now)) result }
{
    if !are_read(&TRIAL, words) {
        return Err(WordsEnd::Usage);
    }
    let matches = trial_rules(alloc)?.try_get_matches_from(words)?;
    trial_of(&matches).ok_or(WordsEnd::Usage)
}

// The command `trial` of what was found: at most 8,192 packets, and at most 4,096 symbols.
#[tactic(auto, unfolding(crate::specs::steps::Matched::trial_given))]
fn trial_of(matches: &ArgMatches) -> Option<Command>
    ensures { result ≡ trial_given (value_in matches.now) (is_set matches.now) }
{
    let trial = number(matches, "--number", 0, u64::MAX)?;
    let m = number(matches, "--m", 1, 32)?;
    let t = number(matches, "--t", 1, 2048)?;
    let length = number(matches, "--length", 0, 8_388_608)?;
    let batches = number(matches, "--batches", 0, 8192)?;
    let relays = number(matches, "--relays", 0, 8)?;
    let loss = number(matches, "--loss", 0, 100)?;
    let table = number(matches, "--table", 0, 1)?;
    let workers = workers(matches)?;
    if batches * m > 8192 || length > 4096 * t {
        return None;
    }
    Some(Command::Trial {
        number: trial,
        m: m as u8,
        t: t as u16,
        table: table as u8,
        length,
        batches: batches as u32,
        relays: relays as u32,
        loss: loss as u32,
        workers,
    })
}
