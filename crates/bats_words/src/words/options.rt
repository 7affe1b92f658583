//! The values of options, among what `clap` found.
ghost use Rattle.std.specs.Prelude.{◌≡◌, ◌≤◌, IfSome, option_and_then, codes};
ghost use Rattle.bats_words.specs.WordValues.{number_in, rule_of, seed_of};
ghost use Rattle.bats_words.specs.steps.Matched.{IsFlag, is_set, value_in};

use crate::words::values::{number_in, rule_of, seed_of};
use clap::ArgMatches;

/// The number from `low` to `high` that the option `name` has.
pub(crate) fn number(matches: &ArgMatches, name: &str, low: u64, high: u64) -> Option<u64>
    ensures value { result ≡ option_and_then (number_in low high) (value_in matches.now name.now) }
    ensures within { IfSome result (λ n. n ≤ high) }
{
    number_in(matches.get_str(name)?, low, high)
}

/// The seed that the option `name` has.
pub(crate) fn seed(matches: &ArgMatches, name: &str) -> Option<[u8; 16]>
    ensures { result ≡ option_and_then seed_of (value_in matches.now name.now) }
{
    seed_of(matches.get_str(name)?)
}

/// Whether the rule that the option `name` has is `extra`, and not `fixed`.
pub(crate) fn rule(matches: &ArgMatches, name: &str) -> Option<bool>
    ensures { result ≡ option_and_then rule_of (value_in matches.now name.now) }
{
    rule_of(matches.get_str(name)?)
}

/// Whether the flag `name` is there.
pub(crate) fn flag(matches: &ArgMatches, name: &str) -> bool
    requires { IsFlag matches.now name.now }
    ensures { result ≡ is_set matches.now name.now }
{
    matches.get_flag(name)
}

/// The number of workers.
pub(crate) fn workers(matches: &ArgMatches) -> Option<u32>
    ensures { result ≡ option_and_then (number_in 1 64) (value_in matches.now (codes "--workers")) }
{
    let workers = number(matches, "--workers", 1, 64)?;
    Some(workers as u32)
}
