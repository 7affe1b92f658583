//! How `replay` ends on a text that is no script, and at an event that doesn't take place.
ghost use Rattle.std.specs.Prelude.{◌≡◌, ◌≢◌, ◌++◌, codes, string_bytes, IfOk, IfErr};
ghost use Rattle.std.specs.Fmt.{decimal};
ghost use Rattle.tool_replay.specs.Replay.{event_refusal, key_name, no_script_ending, obstacle_ending};

use bats_script::{ScriptEnd, ScriptKey};
use bats_world::WorldEnd;
use std::alloc::{AllocError, Global};
use tool_run::{Finish, Status, Stop, refusal};

// How the run ends whose script is too long.
pub(crate) fn too_long(alloc: Global) -> Result<Finish, Stop>
    ensures status { IfOk result (λ finish. finish.status ≡ Status.Limit) }
    ensures line { IfOk result (λ finish. string_bytes finish.line ≡ codes "bats: limit script\n") }
    ensures stop { IfErr result (λ stop. stop ≡ Stop.Memory) }
{
    Ok(refusal(alloc, Status::Limit, "bats: limit script\n")?)
}

// The name of a key in the notes line.
fn key_name(key: ScriptKey) -> &'static str
    ensures { result.now ≡ key_name key }
{
    match key {
        ScriptKey::Toml => "toml",
        ScriptKey::Unknown => "unknown",
        ScriptKey::M => "m",
        ScriptKey::T => "t",
        ScriptKey::Table => "table",
        ScriptKey::Systematic => "systematic",
        ScriptKey::Seed => "seed",
        ScriptKey::File => "file",
        ScriptKey::Relays => "relays",
        ScriptKey::Links => "links",
        ScriptKey::Event => "event",
    }
}

// The notes line of a wrong key.
fn key_line(alloc: Global, name: &str) -> Result<String, AllocError>
    ensures { IfOk result (λ line. string_bytes line ≡ codes "bats: script key=" ++ (name.now ++ codes "\n")) }
{
    format!(in alloc; "bats: script key={name}\n")
}

// How the run ends whose text gives no script.
pub(crate) fn no_script(alloc: Global, end: ScriptEnd) -> Result<Finish, Stop>
    ensures status { IfOk result (λ finish. finish.status ≡ (no_script_ending end).status) }
    ensures line { IfOk result (λ finish. string_bytes finish.line ≡ (no_script_ending end).line) }
    ensures told { IfOk result (λ finish. end ≢ ScriptEnd.Memory) }
    ensures stop { IfErr result (λ stop. stop ≡ Stop.Memory) }
{
    match end {
        ScriptEnd::Memory => Err(Stop::Memory),
        ScriptEnd::Key { key } => Ok(Finish {
            status: Status::Script,
            line: key_line(alloc, key_name(key))?,
        }),
        ScriptEnd::TooLong => Ok(refusal(alloc, Status::Limit, "bats: limit symbols\n")?),
    }
}

// The notes line of an event that doesn't take place.
fn event_line(alloc: Global, number: usize, word: &str) -> Result<String, AllocError>
    ensures { IfOk result (λ line. string_bytes line
        ≡ codes "bats: script event=" ++ (decimal number ++ (codes " " ++ (word.now ++ codes "\n")))) }
{
    format!(in alloc; "bats: script event={number} {word}\n")
}

// How the run ends at an event that is refused for a cause with this word.
fn event_refusal(alloc: Global, number: usize, word: &str) -> Result<Finish, Stop>
    ensures status { IfOk result (λ finish. finish.status ≡ (event_refusal number word.now).status) }
    ensures line { IfOk result (λ finish. string_bytes finish.line ≡ (event_refusal number word.now).line) }
    ensures stop { IfErr result (λ stop. stop ≡ Stop.Memory) }
{
    Ok(Finish {
        status: Status::Script,
        line: event_line(alloc, number, word)?,
    })
}

// How the run ends at an event, by its number, that doesn't take place for this cause.
pub(crate) fn at_obstacle(alloc: Global, number: usize, cause: WorldEnd) -> Result<Finish, Stop>
    ensures status { IfOk result (λ finish. finish.status ≡ (obstacle_ending number cause).status) }
    ensures line { IfOk result (λ finish. string_bytes finish.line ≡ (obstacle_ending number cause).line) }
    ensures told { IfOk result (λ finish. cause ≢ WorldEnd.Memory) }
    ensures stop { IfErr result (λ stop. stop ≡ Stop.Memory) }
{
    match cause {
        WorldEnd::Memory => Err(Stop::Memory),
        WorldEnd::NoNode => event_refusal(alloc, number, "no-node"),
        WorldEnd::NotARelay => event_refusal(alloc, number, "not-a-relay"),
        WorldEnd::NoPacket => event_refusal(alloc, number, "no-packet"),
        WorldEnd::NoLink => event_refusal(alloc, number, "no-link"),
        WorldEnd::NothingHeld => event_refusal(alloc, number, "nothing-held"),
        WorldEnd::ColumnTooLarge => event_refusal(alloc, number, "column-too-large"),
        WorldEnd::Full => Ok(refusal(alloc, Status::Limit, "bats: limit kept\n")?),
        WorldEnd::PoolFull => Ok(refusal(alloc, Status::Limit, "bats: limit pool\n")?),
    }
}
