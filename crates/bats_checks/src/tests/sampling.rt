ghost use Rattle.std.specs.Prelude.{◌≡◌, IfOk};

use bats_model::{BadSession, Batch, Bytes, Session};
use bats_sampler::{batch, mix_bytes};
use std::alloc::{AllocError, Global};
use std::test::Fail;

fn has_contributors(batch: &Batch, expected: &[u32]) -> bool {
    if batch.degree() as usize != expected.len() {
        return false;
    }
    let mut same = true;
    for k in 0..batch.degree() {
        same = same && batch.contributor(k) == expected[k as usize];
    }
    same
}

// The entries of the generator of a batch of two packets, row after row.
fn entries(alloc: Global, batch: &Batch) -> Result<Bytes, AllocError>
    requires { batch.now.columns ≡ 2 }
{
    let mut entries = Bytes::new(alloc);
    for k in 0..batch.degree() {
        entries.push(batch.entry(k, 0).byte())?;
        entries.push(batch.entry(k, 1).byte())?;
    }
    Ok(entries)
}

fn session(length: u64, table: u8, systematic: bool) -> Result<Session, BadSession>
    ensures { IfOk result (λ session. session.m ≡ 2) }
{
    Session::new(2, 1, length, table, systematic, [0; 16])
}

// The words of the zero key are those of RFC 8439, appendix A.1, first vector.
#[test]
fn the_zero_key(rt: HostRuntime) -> Result<(), Fail> {
    let parameters = session(5, 1, false)?;
    let found = batch(rt.alloc(), &parameters, 0)?;
    assert_eq!(rt; found.number(), 0);
    assert!(rt; has_contributors(&found, &[2, 4, 0, 3]));
    let bytes = entries(rt.alloc(), &found)?;
    assert_eq!(rt;
        bytes.as_slice(),
        [0xa0, 0x8d, 0xed, 0x1a, 0xa8, 0x36, 0xef, 0xcc].as_slice()
    );
    Ok(())
}

#[test]
fn a_systematic_session_past_its_systematic_batches(rt: HostRuntime) -> Result<(), Fail> {
    let parameters = session(5, 1, true)?;
    let unit = batch(rt.alloc(), &parameters, 2)?;
    assert!(rt; has_contributors(&unit, &[4]));
    let sampled = batch(rt.alloc(), &parameters, 3)?;
    assert_eq!(rt; sampled.number(), 3);
    assert!(rt; has_contributors(&sampled, &[1, 0, 2]));
    let bytes = entries(rt.alloc(), &sampled)?;
    assert_eq!(rt;
        bytes.as_slice(),
        [0x8b, 0xe2, 0x7f, 0x00, 0xfb, 0x7d].as_slice()
    );
    Ok(())
}

#[test]
fn no_symbols(rt: HostRuntime) -> Result<(), Fail> {
    let found = batch(rt.alloc(), &session(0, 0, false)?, 7)?;
    assert_eq!(rt; found.number(), 7);
    assert_eq!(rt; found.degree(), 0);
    Ok(())
}

// Each degree of table 0 is at least 12.
#[test]
fn a_degree_above_the_symbols(rt: HostRuntime) -> Result<(), Fail> {
    let found = batch(rt.alloc(), &session(3, 0, false)?, 0)?;
    assert!(rt; has_contributors(&found, &[1, 2, 0]));
    Ok(())
}

#[test]
fn twenty_of_200_symbols(rt: HostRuntime) -> Result<(), Fail> {
    let found = batch(rt.alloc(), &session(200, 0, false)?, 5)?;
    assert!(rt;
        has_contributors(
            &found,
            &[
                167, 56, 184, 44, 80, 11, 197, 38, 78, 140, 99, 61, 133, 19, 163, 102, 120, 40, 5,
                89,
            ]
        )
    );
    Ok(())
}

#[test]
fn the_bytes_of_a_relay(rt: HostRuntime) -> Result<(), Fail> {
    let seed = [0, 1, 2, 3, 4, 5, 6, 7, 8, 9, 10, 11, 12, 13, 14, 15];
    assert_eq!(rt; mix_bytes(rt.alloc(), &seed, 7, 9, 0)?.len(), 0);
    let bytes = mix_bytes(rt.alloc(), &seed, 7, 9, 6)?;
    assert_eq!(rt;
        bytes.as_slice(),
        [0xcc, 0x8d, 0xac, 0x08, 0xf1, 0x07].as_slice()
    );
    assert_eq!(rt; mix_bytes(rt.alloc(), &seed, 7, 9, 32)?.len(), 32);
    Ok(())
}
