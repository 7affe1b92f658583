//! What kept packets are peeled to.
ghost use Rattle.std.specs.Prelude.{◌≡◌, ◌<◌, List, length, IfOk, OnOk};
ghost use Rattle.bats_model.specs.Session.{symbols_of};
ghost use Rattle.bats_model.specs.declared.packet.Packet.{Packet};
ghost use Rattle.bats_batch.specs.Held.{StandsFor};

use bats_batch::Held;
use bats_model::{Bytes, Packet, Session};
use bats_peel::{Peeled, Place, peel};
use gf_rows::Steps;
use std::alloc::{AllocGlobal, Global};
use std::marker::Brand;
use std::process::Abort;
use std::sync::ledger::{Blank, Ledger};
use std::test::Fail;

// Offers a packet of batch 0.
fn offer_to<C: Ledger, L: Ledger>(
    alloc: Global,
    held: &mut Held,
    session: &Session,
    coefs: &[u8],
    payload: &[u8],
    coef_steps: &mut Steps<C>,
    steps: &mut Steps<L>,
) -> Result<(), Fail>
    requires { held.old.session ≡ session.now }
    ensures session { held.new.session ≡ session.now }
    ensures stands { OnOk result ((packets : List Packet) → StandsFor packets held.old
        → (more : List Packet) × StandsFor more held.new) }
{
    let packet = Packet {
        batch: 0,
        coefs: Bytes::copy_of(alloc, coefs)?,
        payload: Bytes::copy_of(alloc, payload)?,
    };
    if packet.coefs.len() != usize::from(session.m()) {
        return Err(Fail::new("coefficients of another session"));
    }
    if packet.payload.len() != usize::from(session.t()) {
        return Err(Fail::new("a payload of another session"));
    }
    held.offer(&packet, coef_steps, steps)?;
    Ok(())
}

// What a session's packets of batch 0 with these coefficients are peeled to. Their payloads are all this one.
fn peeled_of<C: Ledger, L: Ledger>(
    alloc: Global,
    session: &Session,
    vectors: &[[u8; 2]],
    payload: &[u8],
    counters: (Blank, Blank),
) -> Result<Peeled, Fail>
    requires coef_name { counters.0.name ≡ C.name }
    requires coef_parts { counters.0.parts ≡ C.parts }
    requires coef_some { 0 < counters.0.parts }
    requires name { counters.1.name ≡ L.name }
    requires parts { counters.1.parts ≡ L.parts }
    requires some { 0 < counters.1.parts }
    ensures { IfOk result (λ peeled. length peeled.places ≡ symbols_of session.now) }
{
    let (coef_blank, blank) = counters;
    let mut coef_steps = Steps::<C>::new(coef_blank);
    let mut steps = Steps::<L>::new(blank);
    let mut held = Held::new(alloc, *session);
    for i in 0..vectors.len() {
        let coefs = vectors[i];
        offer_to(
            alloc,
            &mut held,
            session,
            &coefs,
            payload,
            &mut coef_steps,
            &mut steps,
        )?;
    }
    Ok(peel(alloc, session, &held, &mut coef_steps)?)
}

// What the packets are peeled to has these inactive symbols, which are those of the columns in this order too, and these places
// of the symbols, and no row is left over.
fn check<R: AllocGlobal + Abort>(
    rt: &R,
    session: &Session,
    vectors: &[[u8; 2]],
    payload: &[u8],
    inactive: &[u32],
    places: &[Place],
) -> Result<Peeled, Fail> {
    let counters = (Blank::new(1), Blank::new(1));
    let peeled = peeled_of::<Brand, Brand>(rt.alloc(), session, vectors, payload, counters)?;
    assert_eq!(rt; peeled.inactive.as_slice(), inactive);
    assert_eq!(rt; peeled.columns.as_slice(), inactive);
    assert!(rt; places.len() == session.symbols() as usize);
    for s in 0..session.symbols() {
        assert_eq!(rt; peeled.places.get(s), places[s as usize], "symbol {s}");
    }
    assert_eq!(rt; peeled.leftover.len(), 0);
    Ok(peeled)
}

#[test]
fn packets_are_peeled(rt: HostRuntime) -> Result<(), Fail> {
    // The sum of two symbols.
    let session = Session::new(2, 2, 4, 0, true, [0; 16])?;
    let places = [Place::Column(0), Place::Row(0)];
    let sum = check(&rt, &session, &[[1, 1]], &[2, 6], &[0], &places)?;
    assert_eq!(&rt; sum.rows.rows(), 1);
    assert!(&rt; 0 < sum.rows.rows() && sum.rows.row(0) == [1].as_slice());
    // Two packets of a batch that mixes the symbols 2, 4, 0 and 3 of five.
    let session = Session::new(2, 1, 5, 1, false, [0; 16])?;
    let places = [
        Place::Column(0),
        Place::Column(2),
        Place::Column(1),
        Place::Row(1),
        Place::Row(0),
    ];
    check(
        &rt,
        &session,
        &[[1, 0], [0, 1]],
        &[0xCF],
        &[0, 2, 1],
        &places,
    )?;
    Ok(())
}
