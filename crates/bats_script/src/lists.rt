//! The lists that the keys of a script may have.
ghost use Rattle.std.specs.Prelude.{◌≡◌, ◌≤◌};
ghost use Rattle.toml.specs.View.{view, array_view};
ghost use Rattle.bats_script.specs.ScriptValues.{each, seed_of, seeds_of, link_of, links_of, event_of, events_of};
ghost use Rattle.bats_script.specs.Script.{needs, IsUnlessMemory};

use crate::script::Events;
use crate::script_end::{ScriptEnd, ScriptKey};
use crate::values::{event_of, seed_of, two_numbers};
use bats_world::{Links, Seeds};
use std::alloc::Global;
use toml::Value;

const MAX_RELAYS: usize = 16;

const MAX_LINKS: usize = 256;

fn each_seed(alloc: Global, items: &Vec<Value>) -> Result<Seeds, ScriptEnd>
    ensures { IsUnlessMemory (needs ScriptKey.Relays (each seed_of (array_view items.now))) result }
{
    let mut seeds = Seeds::new(alloc);
    'items: for item in items {
        match seed_of(item) {
            Some(seed) => seeds.push(seed)?,
            None => {
                return Err(ScriptEnd::Key {
                    key: ScriptKey::Relays,
                });
            }
        }
    }
    Ok(seeds)
}

fn each_link(alloc: Global, items: &Vec<Value>, relays: u32) -> Result<Links, ScriptEnd>
    requires { relays ≤ 16 }
    ensures { IsUnlessMemory (needs ScriptKey.Links (each (link_of relays) (array_view items.now))) result }
{
    let mut links = Links::new(alloc);
    'items: for item in items {
        match two_numbers(item, relays, 1, relays + 1) {
            Some(link) => links.push(link)?,
            None => {
                return Err(ScriptEnd::Key {
                    key: ScriptKey::Links,
                });
            }
        }
    }
    Ok(links)
}

fn each_event(alloc: Global, items: &Vec<Value>) -> Result<Events, ScriptEnd>
    ensures { IsUnlessMemory (needs ScriptKey.Event (each event_of (array_view items.now))) result }
{
    let mut events = Events::new(alloc);
    'items: for item in items {
        match event_of(item) {
            Some(event) => events.push(event)?,
            None => {
                return Err(ScriptEnd::Key {
                    key: ScriptKey::Event,
                });
            }
        }
    }
    Ok(events)
}

/// The seeds of at most 16 relays.
#[tactic(auto, unfolding(crate::specs::ScriptValues::seeds_of, crate::specs::Script::needs))]
pub(crate) fn seeds_of(alloc: Global, value: &Value) -> Result<Seeds, ScriptEnd>
    ensures { IsUnlessMemory (needs ScriptKey.Relays (seeds_of (view value.now))) result }
{
    match value {
        Value::Array(items) => {
            if items.len() <= MAX_RELAYS {
                each_seed(alloc, items)
            } else {
                Err(ScriptEnd::Key {
                    key: ScriptKey::Relays,
                })
            }
        }
        _ => Err(ScriptEnd::Key {
            key: ScriptKey::Relays,
        }),
    }
}

/// At most 256 links between nodes, of which there are this many relays.
#[tactic(auto, unfolding(crate::specs::ScriptValues::links_of, crate::specs::Script::needs))]
pub(crate) fn links_of(alloc: Global, value: &Value, relays: u32) -> Result<Links, ScriptEnd>
    requires { relays ≤ 16 }
    ensures { IsUnlessMemory (needs ScriptKey.Links (links_of relays (view value.now))) result }
{
    match value {
        Value::Array(items) => {
            if items.len() <= MAX_LINKS {
                each_link(alloc, items, relays)
            } else {
                Err(ScriptEnd::Key {
                    key: ScriptKey::Links,
                })
            }
        }
        _ => Err(ScriptEnd::Key {
            key: ScriptKey::Links,
        }),
    }
}

/// Events, one after the other.
#[tactic(auto, unfolding(crate::specs::ScriptValues::events_of, crate::specs::Script::needs))]
pub(crate) fn events_of(alloc: Global, value: &Value) -> Result<Events, ScriptEnd>
    ensures { IsUnlessMemory (needs ScriptKey.Event (events_of (view value.now))) result }
{
    match value {
        Value::Array(items) => each_event(alloc, items),
        _ => Err(ScriptEnd::Key {
            key: ScriptKey::Event,
        }),
    }
}
