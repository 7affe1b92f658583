ghost use Rattle.std.specs.Prelude.{◌≡◌, ◌<◌, IfOk, length};
ghost use Rattle.bats_relay.specs.Rule.{IsRule};

use bats_batch::HeldEnd;
use bats_model::{Bytes, Packet, Session, Taken};
use bats_relay::{MAX_OUTPUTS, Mixer, Relay, Rule, extra_outputs, fixed_outputs};
use gf_rows::Steps;
use std::alloc::{AllocError, AllocGlobal, Global};
use std::marker::Brand;
use std::process::Abort;
use std::sync::ledger::{Blank, Ledger};
use std::test::Fail;

const SEED: [u8; 16] = [0, 1, 2, 3, 4, 5, 6, 7, 8, 9, 10, 11, 12, 13, 14, 15];

fn packet_of(alloc: Global, batch: u32, coefs: &[u8], payload: &[u8]) -> Result<Packet, AllocError>
    ensures coefs { IfOk result (λ packet. packet.coefs ≡ coefs.now) }
    ensures payload { IfOk result (λ packet. packet.payload ≡ payload.now) }
{
    Ok(Packet {
        batch,
        coefs: Bytes::copy_of(alloc, coefs)?,
        payload: Bytes::copy_of(alloc, payload)?,
    })
}

// Whether this output was made.
fn is_output(made: &Option<Packet>, batch: u32, coefs: &[u8], payload: &[u8]) -> bool {
    match made {
        Some(packet) => {
            packet.batch == batch
                && packet.coefs.as_slice() == coefs
                && packet.payload.as_slice() == payload
        }
        None => false,
    }
}

// Offers a packet, and tells whether it is kept. It is offered once more where memory runs out, since that changes
// nothing.
fn is_kept<C: Ledger, L: Ledger>(
    alloc: Global,
    mixer: &mut Mixer,
    packet: (u32, &[u8], &[u8]),
    coef_steps: &mut Steps<C>,
    steps: &mut Steps<L>,
) -> Result<bool, AllocError>
    requires coefs { length packet.1.now ≡ mixer.old.held.session.m }
    requires payload { length packet.2.now ≡ mixer.old.held.session.t }
    ensures session { mixer.new.held.session ≡ mixer.old.held.session }
{
    let packet = packet_of(alloc, packet.0, packet.1, packet.2)?;
    let mut taken = mixer.offer(&packet, coef_steps, steps);
    if taken == Err(HeldEnd::Memory) {
        taken = mixer.offer(&packet, coef_steps, steps);
    }
    Ok(taken == Ok(Taken::Kept))
}

// Makes the next output of a batch, and tells whether it is this one, and its number this one.
fn makes(
    mixer: &mut Mixer,
    batch: u32,
    number: u32,
    coefs: &[u8],
    payload: &[u8],
) -> Result<bool, AllocError>
    ensures session { mixer.new.held.session ≡ mixer.old.held.session }
{
    if mixer.sent(batch) != number || number >= MAX_OUTPUTS {
        return Ok(false);
    }
    let made = match mixer.next_of(batch) {
        Ok(made) => made,
        Err(_) => mixer.next_of(batch)?,
    };
    Ok(is_output(&made, batch, coefs, payload) && mixer.sent(batch) == number + 1)
}

// The batch, the coefficients and the payload of a packet.
type Offered = (u32, [u8; 6], [u8; 3]);

const OFFERED: [Offered; 6] = [
    (7, [1, 0, 0, 0, 0, 0], [1, 2, 3]),
    (7, [0, 1, 0, 0, 0, 0], [4, 5, 6]),
    (9, [0, 0, 0, 0, 0, 5], [9, 8, 7]),
    (7, [3, 1, 7, 0, 0, 0], [7, 8, 9]),
    (7, [0, 0, 0, 1, 0, 0], [10, 200, 30]),
    (7, [0, 0, 0, 2, 9, 0], [1, 1, 255]),
];

// Mixes five packets of a batch and one of another, and then one packet more.
fn mixes<R: Abort + AllocGlobal, C: Ledger, L: Ledger>(
    rt: &R,
    session: Session,
    counters: (Blank, Blank),
) -> Result<(), Fail>
    requires m { session.m ≡ 6 }
    requires t { session.t ≡ 3 }
    requires coef_name { counters.0.name ≡ C.name }
    requires coef_parts { counters.0.parts ≡ C.parts }
    requires coef_some { 0 < counters.0.parts }
    requires name { counters.1.name ≡ L.name }
    requires parts { counters.1.parts ≡ L.parts }
    requires some { 0 < counters.1.parts }
{
    let (coef_blank, blank) = counters;
    let mut coef_steps = Steps::<C>::new(coef_blank);
    let mut steps = Steps::<L>::new(blank);
    let mut mixer = Mixer::new(rt.alloc(), session, SEED);
    for (batch, coefs, payload) in OFFERED {
        let packet = (batch, coefs.as_slice(), payload.as_slice());
        let kept = is_kept(rt.alloc(), &mut mixer, packet, &mut coef_steps, &mut steps)?;
        assert!(rt; kept);
    }
    for (batch, number, coefs, payload) in [
        (7, 0, [212, 207, 100, 114, 12, 0], [128, 131, 254]),
        (9, 0, [0, 0, 0, 0, 0, 34], [90, 80, 54]),
        (7, 1, [149, 105, 72, 158, 30, 0], [191, 162, 228]),
        (9, 1, [0, 0, 0, 0, 0, 70], [69, 2, 200]),
    ] {
        let as_expected = makes(
            &mut mixer,
            batch,
            number,
            coefs.as_slice(),
            payload.as_slice(),
        )?;
        assert!(rt; as_expected);
    }
    let packet = (7, [1, 1, 1, 1, 1, 1].as_slice(), [0, 0, 77].as_slice());
    let kept = is_kept(rt.alloc(), &mut mixer, packet, &mut coef_steps, &mut steps)?;
    assert!(rt; kept);
    let coefs = [187, 156, 101, 77, 26, 15];
    let as_expected = makes(&mut mixer, 7, 2, coefs.as_slice(), [190, 26, 71].as_slice())?;
    assert!(rt; as_expected);
    assert_eq!(rt; mixer.sent(8), 0);
    assert_eq!(rt; mixer.held().rows(), 7);
    Ok(())
}

#[test]
fn outputs_are_mixed(rt: HostRuntime) -> Result<(), Fail> {
    let session = Session::new(6, 3, 12, 0, false, [0; 16]);
    assert!(rt; session.is_ok());
    if let Ok(session) = session {
        mixes::<HostRuntime, Brand, Brand>(&rt, session, (Blank::new(1), Blank::new(1)))?;
    }
    Ok(())
}

// Offers one packet to a relay with this rule, and makes its first two outputs. It gives how many the rule says.
fn relays<R: Abort + AllocGlobal, F: Fn(u32) -> u32, C: Ledger, L: Ledger>(
    rt: &R,
    session: Session,
    rule: Rule<F>,
    counters: (Blank, Blank),
) -> Result<u32, Fail>
    requires rule { IsRule F.pre F.post rule }
    requires m { session.m ≡ 2 }
    requires t { session.t ≡ 2 }
    requires coef_name { counters.0.name ≡ C.name }
    requires coef_parts { counters.0.parts ≡ C.parts }
    requires coef_some { 0 < counters.0.parts }
    requires name { counters.1.name ≡ L.name }
    requires parts { counters.1.parts ≡ L.parts }
    requires some { 0 < counters.1.parts }
{
    let (coef_blank, blank) = counters;
    let mut coef_steps = Steps::<C>::new(coef_blank);
    let mut steps = Steps::<L>::new(blank);
    let mut relay = Relay::new(rt.alloc(), session, [0; 16], rule);
    assert_eq!(rt; relay.outputs_of(0), 0);
    let packet = packet_of(rt.alloc(), 0, &[1, 0], &[1, 2])?;
    let mut taken = relay.offer(&packet, &mut coef_steps, &mut steps);
    if taken == Err(HeldEnd::Memory) {
        taken = relay.offer(&packet, &mut coef_steps, &mut steps);
    }
    assert!(rt; taken == Ok(Taken::Kept));
    for (coefs, payload) in [([129, 0], [129, 31]), ([208, 0], [208, 189])] {
        if relay.sent(0) < MAX_OUTPUTS {
            let made = match relay.next_of(0) {
                Ok(made) => made,
                Err(_) => relay.next_of(0)?,
            };
            let as_expected = is_output(&made, 0, coefs.as_slice(), payload.as_slice());
            assert!(rt; as_expected);
        }
    }
    assert_eq!(rt; relay.sent(0), 2);
    assert_eq!(rt; relay.sent(1), 0);
    assert_eq!(rt; relay.held().batches(), 1);
    Ok(relay.outputs_of(0))
}

// The two rules of the command `relay`.
#[test]
fn rules_say_how_many(rt: HostRuntime) -> Result<(), Fail> {
    let session = Session::new(2, 2, 8, 0, false, [0; 16]);
    assert!(rt; session.is_ok());
    if let Ok(session) = session {
        let count = 3;
        let fixed = Rule::new(count, move |rank| fixed_outputs(count, rank));
        assert_eq!(rt; fixed.cap(), 3);
        let counters = (Blank::new(1), Blank::new(1));
        let said = relays::<HostRuntime, _, Brand, Brand>(&rt, session, fixed, counters)?;
        assert_eq!(rt; said, 3);
        let m = session.m();
        let extra = Rule::new(u32::from(m) + 64, move |rank| extra_outputs(m, 64, rank));
        assert_eq!(rt; extra.cap(), 66);
        assert_eq!(rt; extra.count(0), 0);
        assert_eq!(rt; extra.count(32), 66);
        let counters = (Blank::new(1), Blank::new(1));
        let said = relays::<HostRuntime, _, Brand, Brand>(&rt, session, extra, counters)?;
        assert_eq!(rt; said, 65);
    }
    Ok(())
}
