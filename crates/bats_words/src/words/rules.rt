//! The commands that `clap` reads words by: their options with their defaults, and their flags. Each is read back by its
//! whole word.
ghost use Rattle.std.specs.Prelude.{◌≡◌, [], ◌∷◌, IfOk, codes};
ghost use Rattle.clap.specs.Simple.{app_of};
ghost use Rattle.bats_words.specs.steps.Rules.{HasRule, bare_app, flag_rule, option_rule};
ghost use Rattle.bats_words.specs.steps.Rules.{check_app, relay_app, replay_app, sink_app, source_app, trial_app};

use clap::{Arg, ArgAction, Command};
use std::alloc::{AllocError, Global};

fn option<'a>(alloc: Global, word: &'a str, name: &'a str) -> Arg<'a>
    ensures { HasRule (option_rule word.entry.now name.entry.now []) result }
{
    Arg::new(alloc, word).long(name)
}

fn option_or<'a>(alloc: Global, word: &'a str, name: &'a str, default: &'a str) -> Arg<'a>
    ensures { HasRule (option_rule word.entry.now name.entry.now (default.entry.now ∷ [])) result }
{
    Arg::new(alloc, word).long(name).default_value(default)
}

fn flag<'a>(alloc: Global, word: &'a str, name: &'a str) -> Arg<'a>
    ensures { HasRule (flag_rule word.entry.now name.entry.now) result }
{
    Arg::new(alloc, word).long(name).action(ArgAction::SetTrue)
}

// How many workers, one where the option is not there.
fn workers<'a>(alloc: Global) -> Arg<'a>
    ensures { HasRule (option_rule (codes "--workers") (codes "workers") (codes "1" ∷ [])) result }
{
    option_or(alloc, "--workers", "workers", "1")
}

// A command of which all words are options and flags, and none asks for help.
fn bare<'a>(alloc: Global, name: &'a str) -> Command<'a>
    ensures { app_of result ≡ bare_app name.entry.now }
{
    Command::new(alloc, name)
        .no_binary_name(true)
        .disable_help_flag(true)
}

/// What `source` is asked for.
pub(crate) fn source_rules<'a>(alloc: Global) -> Result<Command<'a>, AllocError>
    ensures { IfOk result (λ command. app_of command ≡ source_app) }
{
    bare(alloc, "source")
        .arg(option(alloc, "--m", "m"))?
        .arg(option(alloc, "--t", "t"))?
        .arg(option(alloc, "--seed", "seed"))?
        .arg(option(alloc, "--batches", "batches"))?
        .arg(option_or(alloc, "--table", "table", "0"))?
        .arg(option_or(alloc, "--from", "from", "0"))?
        .arg(flag(alloc, "--systematic", "systematic"))
}

/// What `relay` is asked for.
pub(crate) fn relay_rules<'a>(alloc: Global) -> Result<Command<'a>, AllocError>
    ensures { IfOk result (λ command. app_of command ≡ relay_app) }
{
    bare(alloc, "relay")
        .arg(option(alloc, "--seed", "seed"))?
        .arg(option(alloc, "--rule", "rule"))?
        .arg(option(alloc, "--count", "count"))
}

/// What `sink` is asked for.
pub(crate) fn sink_rules<'a>(alloc: Global) -> Result<Command<'a>, AllocError>
    ensures { IfOk result (λ command. app_of command ≡ sink_app) }
{
    bare(alloc, "sink")
        .arg(workers(alloc))?
        .arg(flag(alloc, "--both", "both"))
}

/// What `replay` is asked for.
pub(crate) fn replay_rules<'a>(alloc: Global) -> Result<Command<'a>, AllocError>
    ensures { IfOk result (λ command. app_of command ≡ replay_app) }
{
    bare(alloc, "replay")
        .arg(workers(alloc))?
        .arg(flag(alloc, "--both", "both"))?
        .arg(flag(alloc, "--pool", "pool"))
}

/// What `check` is asked for.
pub(crate) fn check_rules<'a>(alloc: Global) -> Result<Command<'a>, AllocError>
    ensures { IfOk result (λ command. app_of command ≡ check_app) }
{
    bare(alloc, "check").arg(workers(alloc))
}

/// What `trial` is asked for.
pub(crate) fn trial_rules<'a>(alloc: Global) -> Result<Command<'a>, AllocError>
    ensures { IfOk result (λ command. app_of command ≡ trial_app) }
{
    bare(alloc, "trial")
        .arg(option(alloc, "--number", "number"))?
        .arg(option(alloc, "--m", "m"))?
        .arg(option(alloc, "--t", "t"))?
        .arg(option(alloc, "--length", "length"))?
        .arg(option(alloc, "--batches", "batches"))?
        .arg(option(alloc, "--relays", "relays"))?
        .arg(option(alloc, "--loss", "loss"))?
        .arg(option_or(alloc, "--table", "table", "0"))?
        .arg(workers(alloc))
}
