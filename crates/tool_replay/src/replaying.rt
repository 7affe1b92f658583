//! The command `replay`.
ghost use Rattle.std.specs.Prelude.{◌≡◌, Bool, true, false};
ghost use Rattle.bats_io.specs.Streams.{InputState};
ghost use Rattle.bats_script.specs.Sound.{IsSound};
ghost use Rattle.bats_script.specs.declared.script.Script.{Script as ScriptData};
ghost use Rattle.bats_words.specs.Options.{HasWorkers};
ghost use Rattle.tool_run.specs.Attempt.{Attempts};
ghost use Rattle.tool_run.specs.Streams.{Counters as Counts};
ghost use Rattle.tool_replay.specs.Replay.{replay_promise};
ghost use Rattle.tool_replay.specs.steps.Playing.{IsScriptRead, HasPlayedScript};

use crate::playing::{play, world_of, write_pool};
use crate::refusals::{at_obstacle, no_script, too_long};
use bats_io::{Sink, Source};
use bats_model::Session;
use bats_script::{Script, read_script};
use bats_world::World;
use std::alloc::Global;
use std::sync::ledger::Ledger;
use std::thread::Threads;
use tool_records::Counters;
use tool_run::{Finish, Stop, read_file};
use tool_sink::{finish_of, write_answer};

// Bytes of a script, at most.
const MAX_SCRIPT: usize = 4_194_304;

// Writes the pool, and then solves for what the sink was given.
fn tell_pool<R: Threads + Sync, O: Sink, C: Ledger, L: Ledger>(
    rt: &R,
    alloc: Global,
    workers: u32,
    session: &Session,
    world: World,
    output: &mut O,
    counters: &mut Counters<C, L>,
) -> Result<Finish, Stop>
    requires workers { HasWorkers workers }
    requires session { world.session ≡ session.now }
    ensures { (both : Bool) (before after : InputState) (script : ScriptData) (first : Counts)
        → HasPlayedScript before after script first.payloads counters.old.steps world
        → Attempts (replay_promise both true)
        (record { input = before; output = O.state output.old })
        (record { input = after; output = O.state output.new })
        first
        (record { coefficients = counters.new.coef_steps; payloads = counters.new.steps })
        result }
{
    write_pool(output, session, &world)?;
    let solved = world.finish(rt, workers, &mut counters.coef_steps, &mut counters.steps)?;
    Ok(finish_of(alloc, "replay", &solved)?)
}

// Solves for what the sink was given, and writes the answer.
fn tell_answer<R: Threads + Sync, O: Sink, C: Ledger, L: Ledger>(
    rt: &R,
    alloc: Global,
    workers: u32,
    both: bool,
    world: World,
    output: &mut O,
    counters: &mut Counters<C, L>,
) -> Result<Finish, Stop>
    requires workers { HasWorkers workers }
    ensures { (before after : InputState) (script : ScriptData) (first : Counts)
        → HasPlayedScript before after script first.payloads counters.old.steps world
        → Attempts (replay_promise both false)
        (record { input = before; output = O.state output.old })
        (record { input = after; output = O.state output.new })
        first
        (record { coefficients = counters.new.coef_steps; payloads = counters.new.steps })
        result }
{
    let solved = world.finish(rt, workers, &mut counters.coef_steps, &mut counters.steps)?;
    let finish = finish_of(alloc, "replay", &solved)?;
    write_answer(output, both, &solved.answer)?;
    Ok(finish)
}

// Tells what the sink was given, and writes the pool where it is asked for.
fn tell<R: Threads + Sync, O: Sink, C: Ledger, L: Ledger>(
    rt: &R,
    alloc: Global,
    workers: u32,
    both: bool,
    pool: bool,
    session: &Session,
    world: World,
    output: &mut O,
    counters: &mut Counters<C, L>,
) -> Result<Finish, Stop>
    requires workers { HasWorkers workers }
    requires session { world.session ≡ session.now }
    ensures { (before after : InputState) (script : ScriptData) (first : Counts)
        → HasPlayedScript before after script first.payloads counters.old.steps world
        → Attempts (replay_promise both pool)
        (record { input = before; output = O.state output.old })
        (record { input = after; output = O.state output.new })
        first
        (record { coefficients = counters.new.coef_steps; payloads = counters.new.steps })
        result }
{
    if pool {
        tell_pool(rt, alloc, workers, session, world, output, counters)
    } else {
        tell_answer(rt, alloc, workers, both, world, output, counters)
    }
}

// Plays a script, and tells what its sink was given.
fn play_script<R: Threads + Sync, O: Sink, C: Ledger, L: Ledger>(
    rt: &R,
    alloc: Global,
    workers: u32,
    both: bool,
    pool: bool,
    script: Script,
    output: &mut O,
    counters: &mut Counters<C, L>,
) -> Result<Finish, Stop>
    requires workers { HasWorkers workers }
    requires sound { IsSound script }
    ensures { (before after : InputState) → IsScriptRead before after script → Attempts (replay_promise both pool)
        (record { input = before; output = O.state output.old })
        (record { input = after; output = O.state output.new })
        (record { coefficients = counters.old.coef_steps; payloads = counters.old.steps })
        (record { coefficients = counters.new.coef_steps; payloads = counters.new.steps })
        result }
{
    let Script {
        session,
        file,
        relay_seeds,
        links,
        events,
    } = script;
    let _bytes = file.as_slice();
    let mut world = world_of(alloc, session, file, relay_seeds, links)?;
    match play(&mut world, &events, counters) {
        Ok(()) => tell(
            rt, alloc, workers, both, pool, &session, world, output, counters,
        ),
        Err(obstacle) => at_obstacle(alloc, obstacle.number, obstacle.cause),
    }
}

/// Does `replay`: reads a script of at most 4,194,304 bytes, does its events, and writes the file that the packets given to
/// the sink give, or says that more are needed; or, where the pool is asked for, writes all packets that were made. The
/// number of workers is 1 to 64.
pub fn replay<R: Threads + Sync, S: Source, O: Sink, C: Ledger, L: Ledger>(
    rt: &R,
    alloc: Global,
    workers: u32,
    both: bool,
    pool: bool,
    input: &mut S,
    output: &mut O,
    counters: &mut Counters<C, L>,
) -> Result<Finish, Stop>
    requires { HasWorkers workers }
    ensures { Attempts (replay_promise both pool)
        (record { input = S.state input.old; output = O.state output.old })
        (record { input = S.state input.new; output = O.state output.new })
        (record { coefficients = counters.old.coef_steps; payloads = counters.old.steps })
        (record { coefficients = counters.new.coef_steps; payloads = counters.new.steps })
        result }
{
    let bytes = read_file(alloc, input, MAX_SCRIPT)?;
    if bytes.len() > MAX_SCRIPT {
        return too_long(alloc);
    }
    match read_script(alloc, &bytes) {
        Ok(script) => play_script(rt, alloc, workers, both, pool, script, output, counters),
        Err(end) => no_script(alloc, end),
    }
}
