//! The values that the keys of a script may have.
ghost use Rattle.std.specs.Prelude.{◌≡◌, ◌<◌, ◌+◌, option_map, length};
ghost use Rattle.toml.specs.View.{view, array_view, table_view};
ghost use Rattle.bats_script.specs.ScriptValues.{within, among, numbers_at, number_between, seed_of, two_in, two_numbers, event_in, event_of};

use bats_world::Event;
use hex::FromHex;
use toml::{Table, Value};

// The number of this range that an integer is.
fn within(number: i64, low: u32, high: u32) -> Option<u32>
    ensures { result ≡ within low high number }
{
    match u32::try_from(number) {
        Ok(number) => among(number, low, high),
        Err(_) => None,
    }
}

// The number, if it is in this range.
fn among(number: u32, low: u32, high: u32) -> Option<u32>
    ensures { result ≡ among low high number }
{
    if number < low {
        return None;
    }
    if number > high {
        return None;
    }
    Some(number)
}

/// An integer of this range.
#[tactic(auto, unfolding(crate::specs::ScriptValues::number_between))]
pub(crate) fn number_between(value: &Value, low: u32, high: u32) -> Option<u32>
    ensures { result ≡ number_between low high (view value.now) }
{
    match value {
        Value::Integer(number) => within(*number, low, high),
        _ => None,
    }
}

/// A string of 32 hexadecimal digits, of either case.
#[tactic(auto, unfolding(crate::specs::ScriptValues::seed_of))]
pub(crate) fn seed_of(value: &Value) -> Option<[u8; 16]>
    ensures { result ≡ seed_of (view value.now) }
{
    match value {
        Value::String(text) => <[u8; 16] as FromHex>::from_hex(text.as_str()).ok(),
        _ => None,
    }
}

fn two_in(items: &Vec<Value>, first_high: u32, low: u32, high: u32) -> Option<(u32, u32)>
    ensures { result ≡ two_in first_high low high (array_view items.now) }
{
    if items.len() != 2 {
        return None;
    }
    number_between(&items[0], 0, first_high).zip(number_between(&items[1], low, high))
}

/// Two integers, the first up to `first_high`, the second from `low` to `high`.
#[tactic(auto, unfolding(crate::specs::ScriptValues::two_numbers))]
pub(crate) fn two_numbers(value: &Value, first_high: u32, low: u32, high: u32) -> Option<(u32, u32)>
    ensures { result ≡ two_numbers first_high low high (view value.now) }
{
    match value {
        Value::Array(items) => two_in(items, first_high, low, high),
        _ => None,
    }
}

// Two numbers below 2^32, under this key.
fn numbers_at(table: &Table, key: &str) -> Option<(u32, u32)>
    ensures { result ≡ numbers_at key.now (table_view table.now) }
{
    match table.get(key) {
        Some(value) => two_numbers(value, u32::MAX, 0, u32::MAX),
        None => None,
    }
}

fn event_in(table: &Table) -> Option<Event>
    ensures { result ≡ event_in (table_view table.now) }
{
    if table.len() != 1 {
        return None;
    }
    match numbers_at(table, "send") {
        Some((batch, column)) => Some(Event::Send { batch, column }),
        None => match numbers_at(table, "mix") {
            Some((node, batch)) => Some(Event::Mix { node, batch }),
            None => match numbers_at(table, "give") {
                Some((packet, node)) => Some(Event::Give { packet, node }),
                None => None,
            },
        },
    }
}

/// A table with one key, which is `send`, `mix` or `give`, and two numbers.
#[tactic(auto, unfolding(crate::specs::ScriptValues::event_of))]
pub(crate) fn event_of(value: &Value) -> Option<Event>
    ensures { result ≡ event_of (view value.now) }
{
    match value {
        Value::Table(table) => event_in(table),
        _ => None,
    }
}
