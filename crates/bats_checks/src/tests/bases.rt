ghost use Rattle.std.specs.Prelude.{◌≡◌, ◌<◌, IfOk, All, length};

use bats_batch::Basis;
use bats_model::{Bytes, Packet, Taken};
use gf_rows::Steps;
use std::alloc::{AllocError, AllocGlobal, Global};
use std::marker::Brand;
use std::process::Abort;
use std::sync::ledger::{Blank, Ledger};
use std::test::Fail;

// The coefficients and the payload of a packet, and what becomes of it.
type Offered = ([u8; 2], [u8; 2], Taken);

fn packet_of(alloc: Global, coefs: [u8; 2], payload: [u8; 2]) -> Result<Packet, AllocError>
    ensures coefs { IfOk result (λ packet. length packet.coefs ≡ 2) }
    ensures payload { IfOk result (λ packet. length packet.payload ≡ 2) }
    ensures batch { IfOk result (λ packet. packet.batch ≡ 7) }
{
    Ok(Packet {
        batch: 7,
        coefs: Bytes::copy_of(alloc, &coefs)?,
        payload: Bytes::copy_of(alloc, &payload)?,
    })
}

// Offers a packet of batch 7, and once more where memory runs out, since that changes nothing.
fn offer_again<C: Ledger, L: Ledger>(
    basis: &mut Basis,
    packet: &Packet,
    coef_steps: &mut Steps<C>,
    steps: &mut Steps<L>,
) -> Result<Taken, AllocError>
    requires coefs { length packet.now.coefs ≡ 2 }
    requires payload { length packet.now.payload ≡ 2 }
    requires of_batch { packet.now.batch ≡ 7 }
    requires m { basis.old.m ≡ 2 }
    requires t { basis.old.t ≡ 2 }
    requires batch { All (λ other. other.batch ≡ 7) basis.old.kept }
    ensures m { basis.new.m ≡ 2 }
    ensures t { basis.new.t ≡ 2 }
    ensures batch { All (λ other. other.batch ≡ 7) basis.new.kept }
{
    match basis.offer(packet, coef_steps, steps) {
        Ok(taken) => Ok(taken),
        Err(_) => Ok(basis.offer(packet, coef_steps, steps)?),
    }
}

// Offers a packet of batch 7, and tells whether the answer is what is expected.
fn is_taken_so<C: Ledger, L: Ledger>(
    alloc: Global,
    basis: &mut Basis,
    offered: Offered,
    coef_steps: &mut Steps<C>,
    steps: &mut Steps<L>,
) -> Result<bool, Fail>
    requires m { basis.old.m ≡ 2 }
    requires t { basis.old.t ≡ 2 }
    requires batch { All (λ other. other.batch ≡ 7) basis.old.kept }
    ensures m { basis.new.m ≡ 2 }
    ensures t { basis.new.t ≡ 2 }
    ensures batch { All (λ other. other.batch ≡ 7) basis.new.kept }
{
    let (coefs, payload, expected) = offered;
    let packet = packet_of(alloc, coefs, payload)?;
    let taken = offer_again(basis, &packet, coef_steps, steps)?;
    Ok(taken == expected)
}

fn offers<R: Abort + AllocGlobal, C: Ledger, L: Ledger>(
    rt: &R,
    counters: (Blank, Blank),
) -> Result<(), Fail>
    requires coef_name { counters.0.name ≡ C.name }
    requires coef_parts { counters.0.parts ≡ C.parts }
    requires coef_some { 0 < counters.0.parts }
    requires name { counters.1.name ≡ L.name }
    requires parts { counters.1.parts ≡ L.parts }
    requires some { 0 < counters.1.parts }
{
    let (coef_blank, blank) = counters;
    let mut coef_steps = Steps::<C>::new(coef_blank);
    let mut steps = Steps::<L>::new(blank);
    let mut basis = Basis::new(rt.alloc(), 2, 2);
    let all = [
        ([0, 0], [0, 0], Taken::Dependent),
        ([0, 0], [0, 1], Taken::Contradiction),
        ([2, 0], [2, 4], Taken::Kept),
        ([1, 0], [1, 2], Taken::Dependent),
        ([1, 0], [1, 3], Taken::Contradiction),
        ([3, 1], [9, 9], Taken::Kept),
        ([1, 1], [11, 13], Taken::Dependent),
        ([1, 1], [11, 12], Taken::Contradiction),
    ];
    for offered in all {
        let as_expected = is_taken_so(
            rt.alloc(),
            &mut basis,
            offered,
            &mut coef_steps,
            &mut steps,
        )?;
        assert!(rt; as_expected);
    }
    let rank = basis.rank();
    assert!(rt; rank == 2);
    if rank == 2 {
        assert_eq!(rt; basis.kept(0).payload.as_slice(), [2, 4].as_slice());
        assert_eq!(rt; basis.kept(1).coefs.as_slice(), [3, 1].as_slice());
        assert_eq!(rt; basis.kept(1).payload.as_slice(), [9, 9].as_slice());
    }
    Ok(())
}

#[test]
fn packets_are_kept_as_they_came(rt: HostRuntime) -> Result<(), Fail> {
    offers::<HostRuntime, Brand, Brand>(&rt, (Blank::new(1), Blank::new(1)))
}
