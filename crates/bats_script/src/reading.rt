//! The reading of a script, key by key.
ghost use Rattle.std.specs.Prelude.{◌≡◌, ◌≤◌, codes, IsUtf8, IfOk};
ghost use Rattle.std.specs.Result.{result_ok};
ghost use Rattle.hex.specs.Hex.{decode_of};
ghost use Rattle.toml.specs.Data.{get_member};
ghost use Rattle.toml.specs.View.{view, table_view};
ghost use Rattle.bats_script.specs.ScriptValues.{hex_bytes, seeds_of, links_of};
ghost use Rattle.bats_script.specs.Script.{is_known, are_known, needs, value_at, events_at, whole, script_of, script_of_text, IsUnlessMemory};
ghost use Rattle.bats_script.specs.Sound.{IsSound};
ghost use Rattle.bats_script.specs.steps.Ranges.{AreWithin};

use crate::lists::{events_of, links_of, seeds_of};
use crate::parameters::{Parameters, parameters_in, session_of};
use crate::script::{Events, Script};
use crate::script_end::{ScriptEnd, ScriptKey};
use bats_model::Bytes;
use bats_world::{Links, Seeds};
use hex::FromHexError;
use std::alloc::Global;
use toml::{Table, Value};

// Whether a script may have this key.
#[tactic(auto, unfolding(crate::specs::Script::is_known))]
fn is_known(key: &str) -> bool
    ensures { result ≡ is_known key.now }
{
    match key {
        "m" => true,
        "t" => true,
        "table" => true,
        "systematic" => true,
        "seed" => true,
        "file" => true,
        "relays" => true,
        "links" => true,
        "event" => true,
        _ => false,
    }
}

// Whether a script may have each of these keys.
fn are_known(table: &Table) -> bool
    ensures { result ≡ are_known (table_view table.now) }
{
    'members: for (key, _value) in table.iter() {
        if !is_known(key.as_str()) {
            return false;
        }
    }
    true
}

// The bytes of a text of an even number of hexadecimal digits.
fn decoded(alloc: Global, text: &str) -> Result<Bytes, ScriptEnd>
    ensures { IsUnlessMemory (needs ScriptKey.File (result_ok (decode_of text.now))) result }
{
    match hex::decode(alloc, text) {
        Ok(bytes) => Ok(Bytes::from(bytes)),
        Err(error) => match error {
            FromHexError::OutOfMemory => Err(ScriptEnd::Memory),
            _ => Err(ScriptEnd::Key {
                key: ScriptKey::File,
            }),
        },
    }
}

#[tactic(auto, unfolding(crate::specs::ScriptValues::hex_bytes, crate::specs::Script::needs))]
fn hex_bytes(alloc: Global, value: &Value) -> Result<Bytes, ScriptEnd>
    ensures { IsUnlessMemory (needs ScriptKey.File (hex_bytes (view value.now))) result }
{
    match value {
        Value::String(text) => decoded(alloc, text.as_str()),
        _ => Err(ScriptEnd::Key {
            key: ScriptKey::File,
        }),
    }
}

// The file's bytes.
fn file_in(alloc: Global, table: &Table) -> Result<Bytes, ScriptEnd>
    ensures { IsUnlessMemory (needs ScriptKey.File (value_at hex_bytes (codes "file") (table_view table.now))) result }
{
    match table.get("file") {
        Some(value) => hex_bytes(alloc, value),
        None => Err(ScriptEnd::Key {
            key: ScriptKey::File,
        }),
    }
}

// The relays' seeds.
fn relays_in(alloc: Global, table: &Table) -> Result<Seeds, ScriptEnd>
    ensures { IsUnlessMemory (needs ScriptKey.Relays (value_at seeds_of (codes "relays") (table_view table.now))) result }
{
    match table.get("relays") {
        Some(value) => seeds_of(alloc, value),
        None => Err(ScriptEnd::Key {
            key: ScriptKey::Relays,
        }),
    }
}

// The links between nodes, of which there are this many relays.
fn links_in(alloc: Global, table: &Table, relays: u32) -> Result<Links, ScriptEnd>
    requires { relays ≤ 16 }
    ensures { IsUnlessMemory (needs ScriptKey.Links (value_at (links_of relays) (codes "links") (table_view table.now))) result }
{
    match table.get("links") {
        Some(value) => links_of(alloc, value, relays),
        None => Err(ScriptEnd::Key {
            key: ScriptKey::Links,
        }),
    }
}

// The events, which are none where their key isn't there.
fn events_in(alloc: Global, table: &Table) -> Result<Events, ScriptEnd>
    ensures { IsUnlessMemory (needs ScriptKey.Event (events_at (get_member (codes "event") (table_view table.now)))) result }
{
    match table.get("event") {
        Some(value) => events_of(alloc, value),
        None => Ok(Events::new(alloc)),
    }
}

// The whole script, unless its file has too many symbols.
fn whole(
    parameters: &Parameters,
    file: Bytes,
    relay_seeds: Seeds,
    links: Links,
    events: Events,
) -> Result<Script, ScriptEnd>
    requires { AreWithin parameters.now }
    ensures { result ≡ whole parameters.now file relay_seeds links events }
{
    match session_of(parameters, file.len() as u64) {
        Some(session) => Ok(Script {
            session,
            file,
            relay_seeds,
            links,
            events,
        }),
        None => Err(ScriptEnd::TooLong),
    }
}

// The script that a table is.
fn script_in(alloc: Global, table: &Table) -> Result<Script, ScriptEnd>
    ensures { IsUnlessMemory (script_of (table_view table.now)) result }
{
    if !are_known(table) {
        return Err(ScriptEnd::Key {
            key: ScriptKey::Unknown,
        });
    }
    let parameters = parameters_in(table)?;
    let file = file_in(alloc, table)?;
    let relay_seeds = relays_in(alloc, table)?;
    let links = links_in(alloc, table, relay_seeds.len() as u32)?;
    let events = events_in(alloc, table)?;
    whole(&parameters, file, relay_seeds, links, events)
}

/// The script that a text is: TOML with the keys `m`, `t`, `table`, `systematic`, `seed`, `file`, `relays`, `links`
/// and, where anything happens, `event`. The first key that is absent or wrong is told, in this order, after `Toml`
/// where the text is no TOML in UTF-8 and `Unknown` where there is any other key.
pub fn read_script(alloc: Global, bytes: &[u8]) -> Result<Script, ScriptEnd>
    ensures text { IsUtf8 bytes.now → IsUnlessMemory (script_of_text bytes.now) result }
    ensures no_text { ¬ (IsUtf8 bytes.now) → IsUnlessMemory (Err (ScriptEnd.Key ScriptKey.Toml)) result }
    ensures sound { IfOk result IsSound }
{
    match toml::table_from_slice(alloc, bytes) {
        Ok(table) => script_in(alloc, &table),
        Err(error) => {
            if error.is_memory() {
                Err(ScriptEnd::Memory)
            } else {
                Err(ScriptEnd::Key {
                    key: ScriptKey::Toml,
                })
            }
        }
    }
}
