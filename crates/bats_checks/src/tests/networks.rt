ghost use Rattle.std.specs.Prelude.{◌≡◌, ◌<◌, ◌≤◌, All, length, IfOk, OnOk, IsTrue};
ghost use Rattle.bats_world.specs.World.{IsLink};

use bats_decode::Solved;
use bats_model::{Answer, Bytes, Session};
use bats_world::{Event, Links, Seeds, World, WorldEnd, WorldStart};
use gf_rows::Steps;
use std::alloc::{AllocError, AllocGlobal, Global};
use std::marker::Brand;
use std::process::Abort;
use std::sync::ledger::{Blank, Ledger};
use std::test::Fail;
use std::thread::Threads;

// An event, and the cause that stops it.
type Told = (Event, Option<WorldEnd>);

// Whether a link belongs to a network of so many relays.
fn fits(relays: u32, link: (u32, u32)) -> bool
    requires { relays ≤ 16 }
    ensures { IsTrue result → IsLink relays link }
{
    link.0 <= relays && 1 <= link.1 && link.1 <= relays + 1
}

// Appends a link that belongs to the network.
fn add_link(links: &mut Links, relays: u32, link: (u32, u32)) -> Result<(), AllocError>
    requires few { relays ≤ 16 }
    requires before { All (IsLink relays) links.old }
    ensures { OnOk result (All (IsLink relays) links.new) }
{
    if !fits(relays, link) {
        return Ok(());
    }
    links.push(link)?;
    Ok(())
}

fn links_of(alloc: Global, relays: u32, pairs: &[(u32, u32)]) -> Result<Links, AllocError>
    requires { relays ≤ 16 }
    ensures { IfOk result (All (IsLink relays)) }
{
    let mut links = Links::new(alloc);
    'pairs: for pair in pairs {
        add_link(&mut links, relays, *pair)?;
    }
    Ok(links)
}

// A network of the file 1, 2, 3, 4 in a session of two packets a batch and two bytes a symbol, with one relay or none.
fn world_of(alloc: Global, has_relay: bool, pairs: &[(u32, u32)]) -> Result<World, Fail> {
    let session = Session::new(2, 2, 4, 0, true, [0; 16])?;
    let file = Bytes::copy_of(alloc, &[1, 2, 3, 4])?;
    let mut seeds = Seeds::new(alloc);
    if has_relay {
        seeds.push([0; 16])?;
    }
    let relays = seeds.len();
    if relays > 16 {
        return Err(Fail::new("too many relays"));
    }
    let links = links_of(alloc, relays as u32, pairs)?;
    match World::new(alloc, session, file, seeds, links) {
        Ok(world) => Ok(world),
        Err(_) => Err(Fail::new("no world")),
    }
}

// Whether the packet at this place of the pool is this one.
fn is_at(world: &World, i: u32, coefs: &[u8], payload: &[u8]) -> bool {
    if i >= world.pool_len() {
        return false;
    }
    let packet = world.pool_at(i);
    packet.coefs.as_slice() == coefs && packet.payload.as_slice() == payload
}

// Plays events, each of which is stopped as told, and gives what the sink makes of its packets. An event is tried once
// more where memory runs out, since that changes nothing.
fn plays<R: Threads + Sync + AllocGlobal + Abort, C: Ledger, L: Ledger>(
    rt: &R,
    mut world: World,
    events: &[Told],
    pool: u32,
    counters: (Blank, Blank),
) -> Result<Solved, Fail>
    requires coef_name { counters.0.name ≡ C.name }
    requires coef_parts { counters.0.parts ≡ C.parts }
    requires coef_some { 0 < counters.0.parts }
    requires name { counters.1.name ≡ L.name }
    requires parts { counters.1.parts ≡ L.parts }
    requires some { 0 < counters.1.parts }
{
    let (coef_blank, blank) = counters;
    let mut coef_steps = Steps::<C>::new(coef_blank);
    let mut steps = Steps::<L>::new(blank);
    'events: for told in events {
        let (event, cause) = *told;
        let mut end = world.step(event, &mut coef_steps, &mut steps).err();
        if end == Some(WorldEnd::Memory) {
            end = world.step(event, &mut coef_steps, &mut steps).err();
        }
        assert_eq!(rt; end, cause);
    }
    assert_eq!(rt; world.pool_len(), pool);
    if pool > 1 {
        assert!(rt; is_at(&world, 1, &[129, 0], &[129, 31]));
    }
    Ok(world.finish(rt, 1, &mut coef_steps, &mut steps)?)
}

// A packet reaches the sink over a relay, and another one directly.
#[test]
fn a_file_crosses_the_network(rt: HostRuntime) -> Result<(), Fail> {
    let world = world_of(rt.alloc(), true, &[(0, 1), (1, 2), (0, 2)])?;
    let counters = (Blank::new(1), Blank::new(1));
    let events = [
        (
            Event::Mix { node: 1, batch: 0 },
            Some(WorldEnd::NothingHeld),
        ),
        (
            Event::Send {
                batch: 0,
                column: 0,
            },
            None,
        ),
        (Event::Give { packet: 0, node: 1 }, None),
        (
            Event::Mix { node: 1, batch: 1 },
            Some(WorldEnd::NothingHeld),
        ),
        (Event::Mix { node: 1, batch: 0 }, None),
        (
            Event::Send {
                batch: 0,
                column: 2,
            },
            Some(WorldEnd::ColumnTooLarge),
        ),
        (
            Event::Send {
                batch: 0,
                column: 1,
            },
            None,
        ),
        (Event::Give { packet: 3, node: 9 }, Some(WorldEnd::NoPacket)),
        (Event::Give { packet: 2, node: 3 }, Some(WorldEnd::NoNode)),
        (Event::Give { packet: 1, node: 1 }, Some(WorldEnd::NoLink)),
        (Event::Give { packet: 1, node: 0 }, Some(WorldEnd::NoLink)),
        (Event::Mix { node: 0, batch: 0 }, Some(WorldEnd::NotARelay)),
        (Event::Give { packet: 1, node: 2 }, None),
        (Event::Give { packet: 1, node: 2 }, None),
        (Event::Give { packet: 2, node: 2 }, None),
    ];
    let solved = plays::<HostRuntime, Brand, Brand>(&rt, world, &events, 3, counters)?;
    assert_eq!(rt; solved.packets, 3);
    assert_eq!(rt; solved.kept, 2);
    if let Answer::File(file) = &solved.answer {
        assert_eq!(rt; file.as_slice(), [1, 2, 3, 4].as_slice());
    }
    assert!(rt; matches!(&solved.answer, Answer::File(_)));
    Ok(())
}

#[test]
fn nothing_happens_without_a_relay(rt: HostRuntime) -> Result<(), Fail> {
    let world = world_of(rt.alloc(), false, &[(0, 1)])?;
    let counters = (Blank::new(1), Blank::new(1));
    let events = [
        (Event::Mix { node: 1, batch: 0 }, Some(WorldEnd::NotARelay)),
        (Event::Mix { node: 2, batch: 0 }, Some(WorldEnd::NoNode)),
        (Event::Give { packet: 0, node: 1 }, Some(WorldEnd::NoPacket)),
    ];
    let solved = plays::<HostRuntime, Brand, Brand>(&rt, world, &events, 0, counters)?;
    assert!(rt; matches!(&solved.answer, Answer::NeedMore { .. }));
    Ok(())
}

#[test]
fn refuses_a_file_of_another_length(rt: HostRuntime) -> Result<(), Fail> {
    let session = Session::new(2, 2, 4, 0, true, [0; 16])?;
    let file = Bytes::copy_of(rt.alloc(), &[1, 2, 3])?;
    let seeds = Seeds::new(rt.alloc());
    let links = Links::new(rt.alloc());
    let refused = World::new(rt.alloc(), session, file, seeds, links).err();
    let lengths = WorldStart::OtherLength {
        found: 3,
        declared: 4,
    };
    assert_eq!(rt; refused, Some(lengths));
    Ok(())
}
