ghost use Rattle.std.specs.Prelude.{◌≡◌, ◌<◌};

use bats_decode::{Decoder, Solved};
use bats_model::{Answer, Bytes, Packet, Session};
use gf_rows::Steps;
use std::alloc::{AllocGlobal, Global};
use std::marker::Brand;
use std::process::Abort;
use std::sync::ledger::{Blank, Ledger};
use std::test::Fail;
use std::thread::Threads;

// A packet of batch 0, by its coefficients and its payload.
type Sent = ([u8; 2], [u8; 2]);

// Offers a packet of batch 0.
fn offer_to<C: Ledger, L: Ledger>(
    alloc: Global,
    decoder: &mut Decoder,
    session: &Session,
    sent: Sent,
    coef_steps: &mut Steps<C>,
    steps: &mut Steps<L>,
) -> Result<(), Fail>
    requires { decoder.old.held.session ≡ session.now }
    ensures { decoder.new.held.session ≡ session.now }
{
    let (coefs, payload) = sent;
    let packet = Packet {
        batch: 0,
        coefs: Bytes::copy_of(alloc, &coefs)?,
        payload: Bytes::copy_of(alloc, &payload)?,
    };
    if packet.coefs.len() != usize::from(session.m()) {
        return Ok(());
    }
    if packet.payload.len() != usize::from(session.t()) {
        return Ok(());
    }
    match decoder.offer(&packet, coef_steps, steps) {
        Ok(()) => Ok(()),
        Err(_) => Err(Fail::new("a packet was refused")),
    }
}

// What these packets say of a file of this many bytes, in a session of two packets a batch and two bytes a symbol.
fn solved<R: Threads + Sync + AllocGlobal, C: Ledger, L: Ledger>(
    rt: &R,
    length: u64,
    packets: &[Sent],
    counters: (Blank, Blank),
) -> Result<Solved, Fail>
    requires coef_name { counters.0.name ≡ C.name }
    requires coef_parts { counters.0.parts ≡ C.parts }
    requires coef_some { 0 < counters.0.parts }
    requires name { counters.1.name ≡ L.name }
    requires parts { counters.1.parts ≡ L.parts }
    requires some { 0 < counters.1.parts }
{
    let (coef_blank, blank) = counters;
    let mut coef_steps = Steps::<C>::new(coef_blank);
    let mut steps = Steps::<L>::new(blank);
    let session = Session::new(2, 2, length, 0, true, [0; 16])?;
    let mut decoder = Decoder::new(rt.alloc(), session);
    for i in 0..packets.len() {
        let sent = packets[i];
        offer_to(
            rt.alloc(),
            &mut decoder,
            &session,
            sent,
            &mut coef_steps,
            &mut steps,
        )?;
    }
    Ok(decoder.solve(rt, 1, &mut coef_steps, &mut steps)?)
}

// The kind of an answer.
fn kind_of(answer: &Answer) -> &'static str {
    match answer {
        Answer::File(_) => "file",
        Answer::Inconsistent => "inconsistent",
        Answer::NeedMore { .. } => "need more",
    }
}

// What the packets give has this kind and these numbers of kept packets, of inactive symbols and of symbols with a row.
fn check<R: Threads + Sync + AllocGlobal + Abort>(
    rt: &R,
    length: u64,
    packets: &[Sent],
    kind: &str,
    kept: u32,
    inactive: u32,
    rows: usize,
) -> Result<Solved, Fail> {
    let counters = (Blank::new(1), Blank::new(1));
    let found = solved::<R, Brand, Brand>(rt, length, packets, counters)?;
    assert_eq!(rt; kind_of(&found.answer), kind);
    assert_eq!(rt; found.packets, packets.len() as u64);
    assert_eq!(rt; found.kept, kept);
    assert_eq!(rt; found.inactive, inactive);
    assert_eq!(rt; found.rows.len(), rows);
    Ok(found)
}

#[test]
fn packets_are_solved(rt: HostRuntime) -> Result<(), Fail> {
    let found = check(
        &rt,
        4,
        &[([2, 3], [7, 8]), ([1, 0], [1, 2])],
        "file",
        2,
        0,
        2,
    )?;
    if let Answer::File(file) = &found.answer {
        assert_eq!(&rt; file.as_slice(), [1, 2, 3, 4].as_slice());
    }
    assert!(&rt; found.plan.len() > 0);
    check(&rt, 4, &[([1, 1], [2, 6])], "need more", 1, 1, 0)?;
    check(&rt, 4, &[([0, 0], [0, 1])], "inconsistent", 0, 2, 0)?;
    check(&rt, 3, &[([0, 1], [3, 1])], "inconsistent", 1, 2, 0)?;
    check(&rt, 0, &[], "file", 0, 0, 0)?;
    Ok(())
}
