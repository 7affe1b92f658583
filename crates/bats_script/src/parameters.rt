//! The parameters of a script's session.
ghost use Rattle.std.specs.Prelude.{◌≡◌, IfOk};
ghost use Rattle.toml.specs.Data.{as_bool};
ghost use Rattle.toml.specs.View.{table_view};
ghost use Rattle.bats_script.specs.ScriptValues.{number_between, seed_of};
ghost use Rattle.bats_script.specs.Script.{value_at, parameters_of, session_of};
ghost use Rattle.bats_script.specs.steps.Ranges.{AreWithin};

use crate::script_end::{ScriptEnd, ScriptKey};
use crate::values::{number_between, seed_of};
use bats_model::Session;
use toml::Table;

/// The parameters of a session but the file's length.
#[derive(Clone, Copy)]
pub(crate) struct Parameters {
    m: u8,
    t: u16,
    table: u8,
    systematic: bool,
    seed: [u8; 16],
}

// A number of this range, at a key.
fn number_at(table: &Table, name: &str, low: u32, high: u32) -> Option<u32>
    ensures { result ≡ value_at (number_between low high) name.now (table_view table.now) }
{
    match table.get(name) {
        Some(value) => number_between(value, low, high),
        None => None,
    }
}

// A truth value, at a key.
fn boolean_at(table: &Table, name: &str) -> Option<bool>
    ensures { result ≡ value_at as_bool name.now (table_view table.now) }
{
    match table.get(name) {
        Some(value) => value.as_bool(),
        None => None,
    }
}

// A seed, at a key.
fn seed_at(table: &Table, name: &str) -> Option<[u8; 16]>
    ensures { result ≡ value_at seed_of name.now (table_view table.now) }
{
    match table.get(name) {
        Some(value) => seed_of(value),
        None => None,
    }
}

/// The parameters of a script. The first key that is absent or wrong is told.
pub(crate) fn parameters_in(table: &Table) -> Result<Parameters, ScriptEnd>
    ensures value { result ≡ parameters_of (table_view table.now) }
    ensures within { IfOk result AreWithin }
{
    let m = number_at(table, "m", 1, 32).ok_or(ScriptEnd::Key { key: ScriptKey::M })?;
    let t = number_at(table, "t", 1, 2048).ok_or(ScriptEnd::Key { key: ScriptKey::T })?;
    let degrees = number_at(table, "table", 0, 1).ok_or(ScriptEnd::Key {
        key: ScriptKey::Table,
    })?;
    let systematic = boolean_at(table, "systematic").ok_or(ScriptEnd::Key {
        key: ScriptKey::Systematic,
    })?;
    let seed = seed_at(table, "seed").ok_or(ScriptEnd::Key {
        key: ScriptKey::Seed,
    })?;
    Ok(Parameters {
        m: m as u8,
        t: t as u16,
        table: degrees as u8,
        systematic,
        seed,
    })
}

/// The session of a file of this length, unless it has more than 4,096 symbols.
pub(crate) fn session_of(parameters: &Parameters, length: u64) -> Option<Session>
    requires { AreWithin parameters.now }
    ensures { result ≡ session_of parameters.now length }
{
    Session::new(
        parameters.m,
        parameters.t,
        length,
        parameters.table,
        parameters.systematic,
        parameters.seed,
    )
    .ok()
}
