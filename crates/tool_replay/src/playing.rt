//! The network of a script: its events, and the pool that they lead to.
ghost use Rattle.std.specs.Prelude.{◌≡◌, ◌≢◌, ◌<◌, ◌≤◌, ◌^◌, ◌++◌, All, Some, Ok, Err, length, flat_map, slice_get, IfOk, IfErr, OnOk};
ghost use Rattle.std.specs.Result.{result_err};
ghost use Rattle.bats_model.specs.Records.{header_record};
ghost use Rattle.bats_world.specs.World.{NetworkState, IsEvent, IsLink, IsReached, after_event, max_relays, opening};
ghost use Rattle.bats_world.specs.Standing.{StandsFor};
ghost use Rattle.tool_run.specs.Writes.{Writes};
ghost use Rattle.tool_replay.specs.Replay.{after_events, pool_record};
ghost use Rattle.tool_replay.specs.steps.Playing.{HasPlayed};

use bats_io::Sink;
use bats_model::{Bytes, Session};
use bats_script::Events;
use bats_world::{Event, Links, Seeds, World, WorldEnd, WorldStart};
use std::alloc::Global;
use std::sync::ledger::Ledger;
use tool_records::{Counters, write_header, write_packet};
use tool_run::Stop;

// The network of a script before its events.
pub(crate) fn world_of(
    alloc: Global,
    session: Session,
    file: Bytes,
    relay_seeds: Seeds,
    links: Links,
) -> Result<World, Stop>
    requires file { length file ≡ session.file_length }
    requires relays { length relay_seeds ≤ max_relays }
    requires links { All (IsLink (length relay_seeds)) links }
    ensures stands { IfOk result (StandsFor (opening session file relay_seeds links)) }
    ensures stop { IfErr result (λ stop. stop ≡ Stop.Memory) }
{
    match World::new(alloc, session, file, relay_seeds, links) {
        Ok(world) => Ok(world),
        Err(start) => match start {
            WorldStart::Memory => Err(Stop::Memory),
            WorldStart::OtherLength { .. } => unreachable!(),
        },
    }
}

// The first event that doesn't take place, by its number, and why.
#[derive(Drop)]
pub(crate) struct Obstacle {
    pub(crate) number: usize,
    pub(crate) cause: WorldEnd,
}

// The event at this place.
fn get(events: &[Event], i: usize) -> Event
    requires { i < length events.now }
    ensures { slice_get events.now i ≡ Some result }
{
    events[i]
}

// The event at this place, whose numbers are of four bytes.
fn event_at(events: &Events, i: usize) -> Event
    requires { i < length events.now }
    ensures value { slice_get events.now i ≡ Some result }
    ensures range { IsEvent result }
{
    let event = get(events.as_slice(), i);
    match event {
        Event::Send { .. } => event,
        Event::Mix { .. } => event,
        Event::Give { .. } => event,
    }
}

// Does the events, in their order, up to the first that doesn't take place.
pub(crate) fn play<C: Ledger, L: Ledger>(
    world: &mut World,
    events: &Events,
    counters: &mut Counters<C, L>,
) -> Result<(), Obstacle>
    ensures ok { OnOk result ((start : NetworkState) → StandsFor start world.old → IsReached start
        → HasPlayed start events.now (length events.now) counters.old.steps counters.new.steps world.new) }
    ensures err { IfErr result (λ obstacle. obstacle.cause ≢ WorldEnd.Memory → (start : NetworkState) → StandsFor start world.old
        → IsReached start → after_events start 0 events.now ≡ Err (record { number = obstacle.number; cause = obstacle.cause })) }
    ensures few { length events.now < 2 ^ 64 }
{
    'events: for i in 0..events.len() {
        match world.step(
            event_at(events, i),
            &mut counters.coef_steps,
            &mut counters.steps,
        ) {
            Ok(()) => {}
            Err(cause) => return Err(Obstacle { number: i, cause }),
        }
    }
    Ok(())
}

// Writes the packets of the pool, in their order.
fn write_packets<O: Sink>(output: &mut O, session: &Session, world: &World) -> Result<(), Stop>
    requires { world.now.session ≡ session.now }
    ensures { Writes (O.state output.old) (O.state output.new) (flat_map pool_record world.now.pool) (result_err result) }
{
    'packets: for i in 0..world.pool_len() {
        write_packet(output, session, world.pool_at(i))?;
    }
    Ok(())
}

// Writes the header and the packets of the pool.
pub(crate) fn write_pool<O: Sink>(
    output: &mut O,
    session: &Session,
    world: &World,
) -> Result<(), Stop>
    requires { world.now.session ≡ session.now }
    ensures { Writes (O.state output.old) (O.state output.new)
        (header_record session.now ++ flat_map pool_record world.now.pool) (result_err result) }
{
    write_header(output, session)?;
    write_packets(output, session, world)
}
