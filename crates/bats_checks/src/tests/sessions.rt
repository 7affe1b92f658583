//! Sessions, the batches of parts and of systematic sessions, and lists of bytes and numbers.
use bats_model::{BadSession, Batch, Bytes, Nums, Session, unit_batch};
use std::test::Fail;

const SEED: [u8; 16] = [7; 16];

#[test]
fn refuses_what_is_out_of_range(rt: HostRuntime) {
    for (m, t, length, table, refusal) in [
        (0, 1, 0, 0, BadSession::BatchSize),
        (33, 0, 4097, 2, BadSession::BatchSize),
        (33, 1, 0, 0, BadSession::BatchSize),
        (32, 0, 4097, 2, BadSession::SymbolSize),
        (32, 0, 4096, 0, BadSession::SymbolSize),
        (1, 2049, 0, 0, BadSession::SymbolSize),
        (1, 1, 4097, 2, BadSession::Table),
        (1, 1, 4096, 2, BadSession::Table),
        (1, 1, 4097, 1, BadSession::TooLong { symbols: 4097 }),
        (1, 2, 8193, 0, BadSession::TooLong { symbols: 4097 }),
    ] {
        assert_eq!(rt;
            Session::new(m, t, length, table, false, SEED),
            Err(refusal)
        );
    }
}

#[test]
fn reads_its_parameters(rt: HostRuntime) {
    let session = Session::new(32, 2, 8191, 1, true, SEED);
    assert!(rt; session.is_ok());
    if let Ok(session) = session {
        assert_eq!(rt; session.m(), 32);
        assert_eq!(rt; session.t(), 2);
        assert_eq!(rt; session.length(), 8191);
        assert_eq!(rt; session.table(), 1);
        assert!(rt; session.systematic());
        assert_eq!(rt; session.seed(), SEED);
        assert_eq!(rt; session.symbols(), 4096);
        assert!(rt; session.padded());
    }
    assert!(rt; Session::new(1, 1, 4096, 0, false, SEED).is_ok());
}

fn session(m: u8, length: u64, systematic: bool) -> Result<Session, BadSession> {
    Session::new(m, 1, length, 0, systematic, [0; 16])
}

#[test]
fn the_last_batch_may_be_short(rt: HostRuntime) -> Result<(), Fail> {
    let found = unit_batch(rt.alloc(), &session(2, 5, true)?, 2)?;
    assert!(rt; found.is_some());
    if let Some(batch) = found {
        assert_eq!(rt; batch.number(), 2);
        assert_eq!(rt; batch.degree(), 1);
        if batch.degree() == 1 {
            assert_eq!(rt; batch.contributor(0), 4);
        }
    }
    Ok(())
}

#[test]
fn other_batches_are_not_systematic(rt: HostRuntime) -> Result<(), Fail> {
    assert!(rt; unit_batch(rt.alloc(), &session(2, 5, true)?, 3)?.is_none());
    assert!(rt; unit_batch(rt.alloc(), &session(2, 5, false)?, 0)?.is_none());
    assert!(rt; unit_batch(rt.alloc(), &session(32, 5, true)?, u32::MAX)?.is_none());
    Ok(())
}

#[test]
fn bytes_hold_what_was_put_in(rt: HostRuntime) -> Result<(), Fail> {
    let mut bytes = Bytes::new(rt.alloc());
    assert!(rt; bytes.is_empty());
    bytes.push(9)?;
    assert_eq!(rt; bytes.as_slice(), [9].as_slice());
    assert_eq!(rt; bytes.len(), 1);
    let copy = Bytes::copy_of(rt.alloc(), b"abc")?;
    assert_eq!(rt; copy.as_slice(), b"abc".as_slice());
    Ok(())
}

#[test]
fn batch_of_its_parts(rt: HostRuntime) -> Result<(), Fail> {
    let mut contributors = Nums::new(rt.alloc());
    contributors.push(7)?;
    assert_eq!(rt; contributors.len(), 1);
    assert_eq!(rt; contributors.as_slice(), [7].as_slice());
    let entries = Bytes::copy_of(rt.alloc(), &[3, 4])?;
    let batch = Batch::new(2, 5, contributors, entries);
    assert_eq!(rt; batch.number(), 5);
    assert_eq!(rt; batch.degree(), 1);
    assert_eq!(rt; batch.contributor(0), 7);
    assert_eq!(rt; batch.entry(0, 1).byte(), 4);
    Ok(())
}

#[test]
fn lends_its_rows(rt: HostRuntime) -> Result<(), Fail> {
    let mut contributors = Nums::new(rt.alloc());
    contributors.push(7)?;
    contributors.push(2)?;
    let entries = Bytes::copy_of(rt.alloc(), &[3, 4, 5, 6, 0, 255])?;
    let batch = Batch::new(3, 1, contributors, entries);
    assert_eq!(rt; batch.row(0), [3, 4, 5].as_slice());
    assert_eq!(rt; batch.row(1), [6, 0, 255].as_slice());
    Ok(())
}
