ghost use Rattle.std.specs.Prelude.{◌≡◌, ◌<◌, IfOk, length};

use bats_batch::{Held, HeldEnd, MAX_KEPT};
use bats_model::{Bytes, Packet, Session, Taken};
use gf_rows::Steps;
use std::alloc::{AllocError, AllocGlobal, Global};
use std::marker::Brand;
use std::process::Abort;
use std::sync::ledger::{Blank, Ledger};
use std::test::Fail;

// The batch, the coefficients and the payload of a packet, and what becomes of it.
type Offered = (u32, [u8; 2], [u8; 1], Taken);

fn packet_of(alloc: Global, batch: u32, coefs: &[u8], payload: &[u8]) -> Result<Packet, AllocError>
    ensures coefs { IfOk result (λ packet. packet.coefs ≡ coefs.now) }
    ensures payload { IfOk result (λ packet. packet.payload ≡ payload.now) }
{
    Ok(Packet {
        batch,
        coefs: Bytes::copy_of(alloc, coefs)?,
        payload: Bytes::copy_of(alloc, payload)?,
    })
}

// Offers a packet, and tells whether the answer is what is expected. It is offered once more where memory runs out, since
// that changes nothing.
fn is_taken_so<C: Ledger, L: Ledger>(
    alloc: Global,
    held: &mut Held,
    packet: (u32, &[u8], &[u8]),
    expected: Result<Taken, HeldEnd>,
    coef_steps: &mut Steps<C>,
    steps: &mut Steps<L>,
) -> Result<bool, AllocError>
    requires coefs { length packet.1.now ≡ held.old.session.m }
    requires payload { length packet.2.now ≡ held.old.session.t }
    ensures session { held.new.session ≡ held.old.session }
{
    let packet = packet_of(alloc, packet.0, packet.1, packet.2)?;
    let mut taken = held.offer(&packet, coef_steps, steps);
    if taken == Err(HeldEnd::Memory) {
        taken = held.offer(&packet, coef_steps, steps);
    }
    Ok(taken == expected)
}

const OFFERED: [Offered; 12] = [
    (9, [1, 0], [5], Taken::Kept),
    (9, [0, 0], [0], Taken::Dependent),
    (4, [0, 0], [0], Taken::Dependent),
    (4, [0, 0], [1], Taken::Contradiction),
    (4, [1, 1], [2], Taken::Kept),
    (7, [0, 1], [3], Taken::Kept),
    (9, [1, 0], [6], Taken::Contradiction),
    (4, [1, 0], [1], Taken::Kept),
    (7, [0, 2], [6], Taken::Dependent),
    (9, [1, 1], [8], Taken::Kept),
    (0, [2, 0], [4], Taken::Kept),
    (9, [0, 1], [13], Taken::Dependent),
];

// Offers the packets above, and reads what is held then.
fn holds<R: Abort + AllocGlobal, C: Ledger, L: Ledger>(
    rt: &R,
    session: Session,
    counters: (Blank, Blank),
) -> Result<(), Fail>
    requires m { session.m ≡ 2 }
    requires t { session.t ≡ 1 }
    requires coef_name { counters.0.name ≡ C.name }
    requires coef_parts { counters.0.parts ≡ C.parts }
    requires coef_some { 0 < counters.0.parts }
    requires name { counters.1.name ≡ L.name }
    requires parts { counters.1.parts ≡ L.parts }
    requires some { 0 < counters.1.parts }
{
    let (coef_blank, blank) = counters;
    let mut coef_steps = Steps::<C>::new(coef_blank);
    let mut steps = Steps::<L>::new(blank);
    let mut held = Held::new(rt.alloc(), session);
    for (batch, coefs, payload, expected) in OFFERED {
        let packet = (batch, coefs.as_slice(), payload.as_slice());
        let as_expected = is_taken_so(
            rt.alloc(),
            &mut held,
            packet,
            Ok(expected),
            &mut coef_steps,
            &mut steps,
        )?;
        assert!(rt; as_expected);
    }
    assert_eq!(rt; held.rows(), 6);
    let batches = held.batches();
    for (i, number, rank) in [(0, 0, 1), (1, 4, 2), (2, 7, 1), (3, 9, 2)] {
        assert!(rt; i < batches);
        if i < batches {
            assert_eq!(rt; held.batch_at(i), number);
            assert_eq!(rt; held.basis_at(i).rank(), rank);
        }
        assert_eq!(rt; held.basis_of(number).map(|basis| basis.rank()), Some(rank));
    }
    assert_eq!(rt; batches, 4);
    assert!(rt; held.basis_of(5).is_none());
    Ok(())
}

#[test]
fn batches_come_in_any_order(rt: HostRuntime) -> Result<(), Fail> {
    let session = Session::new(2, 1, 4, 0, false, [0; 16]);
    assert!(rt; session.is_ok());
    if let Ok(session) = session {
        holds::<HostRuntime, Brand, Brand>(&rt, session, (Blank::new(1), Blank::new(1)))?;
    }
    Ok(())
}

// The vector that is 1 at one place.
fn unit(place: usize) -> [u8; 32]
    requires { place < 32 }
{
    let mut vector = [0; 32];
    vector[place] = 1;
    vector
}

// Offers each of the 32 vectors that are 1 at one place, and tells whether all are kept.
fn keeps_batch<C: Ledger, L: Ledger>(
    alloc: Global,
    held: &mut Held,
    batch: u32,
    coef_steps: &mut Steps<C>,
    steps: &mut Steps<L>,
) -> Result<bool, AllocError>
    requires m { held.old.session.m ≡ 32 }
    requires t { held.old.session.t ≡ 1 }
    ensures { held.new.session ≡ held.old.session }
{
    let mut as_expected = true;
    for place in 0..32 {
        let vector = unit(place);
        let packet = (batch, vector.as_slice(), [7].as_slice());
        as_expected &= is_taken_so(alloc, held, packet, Ok(Taken::Kept), coef_steps, steps)?;
    }
    Ok(as_expected)
}

// Keeps 256 batches of 32 packets, and offers more.
fn fills<R: Abort + AllocGlobal, C: Ledger, L: Ledger>(
    rt: &R,
    session: Session,
    counters: (Blank, Blank),
) -> Result<(), Fail>
    requires m { session.m ≡ 32 }
    requires t { session.t ≡ 1 }
    requires coef_name { counters.0.name ≡ C.name }
    requires coef_parts { counters.0.parts ≡ C.parts }
    requires coef_some { 0 < counters.0.parts }
    requires name { counters.1.name ≡ L.name }
    requires parts { counters.1.parts ≡ L.parts }
    requires some { 0 < counters.1.parts }
{
    let (coef_blank, blank) = counters;
    let mut coef_steps = Steps::<C>::new(coef_blank);
    let mut steps = Steps::<L>::new(blank);
    let mut held = Held::new(rt.alloc(), session);
    for batch in 0..256 {
        let as_expected = keeps_batch(
            rt.alloc(),
            &mut held,
            511 - 2 * batch,
            &mut coef_steps,
            &mut steps,
        )?;
        assert!(rt; as_expected);
    }
    assert_eq!(rt; held.rows(), MAX_KEPT);
    for (batch, vector, payload, expected) in [
        (2, unit(0), [7], Err(HeldEnd::Full)),
        (2, [0; 32], [0], Ok(Taken::Dependent)),
        (2, [0; 32], [1], Ok(Taken::Contradiction)),
        (3, unit(0), [7], Ok(Taken::Dependent)),
        (3, unit(0), [8], Ok(Taken::Contradiction)),
    ] {
        let packet = (batch, vector.as_slice(), payload.as_slice());
        let as_expected = is_taken_so(
            rt.alloc(),
            &mut held,
            packet,
            expected,
            &mut coef_steps,
            &mut steps,
        )?;
        assert!(rt; as_expected);
    }
    assert_eq!(rt; held.rows(), MAX_KEPT);
    assert_eq!(rt; held.batches(), 256);
    assert!(rt; held.basis_of(2).is_none());
    Ok(())
}

#[test]
fn no_more_than_8192_are_kept(rt: HostRuntime) -> Result<(), Fail> {
    let session = Session::new(32, 1, 7, 0, false, [0; 16]);
    assert!(rt; session.is_ok());
    if let Ok(session) = session {
        fills::<HostRuntime, Brand, Brand>(&rt, session, (Blank::new(1), Blank::new(1)))?;
    }
    Ok(())
}
