//! Certificates: one of each form, and one for each part that fails; their files, each field of them cut and broken. Sessions have
//! two packets a batch and two bytes a symbol. Places and verdicts are those of vectors/certificates.py.
use bats_cert::{
    Body, CertEnd, Certificate, Packets, Part, Verdict, read_certificate, verify, write_certificate,
};
use bats_format::WriteFault;
use bats_io::{MemSink, MemSource};
use bats_model::{Bytes, Packet, Session};
use gf_rows::Matrix;
use std::alloc::{AllocGlobal, Global};
use std::process::Abort;
use std::test::Fail;

// A packet of batch 0, by its coefficients and its payload.
type Listed = ([u8; 2], [u8; 2]);

// The packet of batch 0.
fn packet_of(alloc: Global, listed: Listed) -> Result<Packet, Fail> {
    let (coefs, payload) = listed;
    Ok(Packet {
        batch: 0,
        coefs: Bytes::copy_of(alloc, &coefs)?,
        payload: Bytes::copy_of(alloc, &payload)?,
    })
}

// The packets of batch 0 that are listed.
fn packets_of(alloc: Global, listed: &[Listed]) -> Result<Packets, Fail> {
    let mut packets = Packets::new(alloc);
    for i in 0..listed.len() {
        packets.push(packet_of(alloc, listed[i])?)?;
    }
    Ok(packets)
}

// A matrix of two columns with these rows.
fn rows_of(alloc: Global, rows: &[[u8; 2]]) -> Result<Matrix, Fail> {
    let mut matrix = Matrix::zeros(alloc, 2, 2)?;
    if rows.len() != 2 {
        return Err(Fail::new("not two rows"));
    }
    matrix.set_row(0, &rows[0]);
    matrix.set_row(1, &rows[1]);
    Ok(matrix)
}

// The verdict on what is said of the packets, in a session for a file of this many bytes.
fn verdict_on(alloc: Global, length: u64, listed: &[Listed], body: Body) -> Result<Verdict, Fail> {
    let cert = Certificate {
        session: Session::new(2, 2, length, 0, true, [0; 16])?,
        packets: packets_of(alloc, listed)?,
        body,
    };
    if !cert.is_fit() {
        return Err(Fail::new("numbers and lengths don't fit"));
    }
    Ok(verify(alloc, &cert)?)
}

// The packets say each symbol of a file.
const EACH: [Listed; 2] = [([1, 0], [1, 2]), ([1, 1], [2, 6])];

fn one(alloc: Global, file: &[u8], rows: &[[u8; 2]]) -> Result<Verdict, Fail> {
    let body = Body::One {
        file: Bytes::copy_of(alloc, file)?,
        rows: rows_of(alloc, rows)?,
    };
    verdict_on(alloc, 4, &EACH, body)
}

#[test]
fn one_file(rt: HostRuntime) -> Result<(), Fail> {
    let alloc = rt.alloc();
    let rows = [[1, 0], [1, 1]];
    assert_eq!(rt; one(alloc, &[1, 2, 3, 4], &rows)?, Verdict::Valid);
    assert_eq!(rt;
        one(alloc, &[1, 2, 3, 5], &rows)?,
        Verdict::Broken(Part::FirstFile)
    );
    assert_eq!(rt;
        one(alloc, &[1, 2, 3, 4], &[[1, 0], [0, 1]])?,
        Verdict::Broken(Part::Row(1))
    );
    assert_eq!(rt;
        one(alloc, &[1, 2, 3, 4], &[[1, 1], [0, 1]])?,
        Verdict::Broken(Part::Row(0))
    );
    Ok(())
}

// Of one packet, the sum of two symbols, which leaves both open.
fn two(alloc: Global, first: &[u8], second: &[u8]) -> Result<Verdict, Fail> {
    let body = Body::Two {
        at_symbol: 0,
        first: Bytes::copy_of(alloc, first)?,
        second: Bytes::copy_of(alloc, second)?,
        rows: Matrix::zeros(alloc, 0, 1)?,
    };
    verdict_on(alloc, 4, &[([1, 1], [2, 6])], body)
}

#[test]
fn two_files(rt: HostRuntime) -> Result<(), Fail> {
    let alloc = rt.alloc();
    assert_eq!(rt; two(alloc, &[0, 0, 2, 6], &[1, 0, 3, 6])?, Verdict::Valid);
    assert_eq!(rt;
        two(alloc, &[0, 0, 2, 6], &[0, 0, 2, 6])?,
        Verdict::Broken(Part::Same)
    );
    assert_eq!(rt;
        two(alloc, &[0, 0, 2, 6], &[1, 0, 2, 6])?,
        Verdict::Broken(Part::SecondFile)
    );
    assert_eq!(rt;
        two(alloc, &[0, 1, 2, 6], &[1, 0, 2, 6])?,
        Verdict::Broken(Part::FirstFile)
    );
    Ok(())
}

fn zero(
    alloc: Global,
    length: u64,
    listed: &[Listed],
    column: u16,
    factors: &[u8],
) -> Result<Verdict, Fail> {
    let factors = Bytes::copy_of(alloc, factors)?;
    verdict_on(alloc, length, listed, Body::Zero { column, factors })
}

#[test]
fn no_file(rt: HostRuntime) -> Result<(), Fail> {
    let alloc = rt.alloc();
    let listed = [([1, 0], [1, 2]), ([1, 0], [1, 3])];
    assert_eq!(rt; zero(alloc, 4, &listed, 1, &[1, 1])?, Verdict::Valid);
    assert_eq!(rt;
        zero(alloc, 4, &listed, 0, &[1, 1])?,
        Verdict::Broken(Part::Sum)
    );
    assert_eq!(rt;
        zero(alloc, 4, &listed, 1, &[0, 1])?,
        Verdict::Broken(Part::Factors)
    );
    // The last symbol has one byte of three, so its second byte is 0 in each file.
    let past = [([0, 1], [3, 1])];
    assert_eq!(rt; zero(alloc, 3, &past, 1, &[1])?, Verdict::Valid);
    assert_eq!(rt;
        zero(alloc, 3, &past, 0, &[1])?,
        Verdict::Broken(Part::Factors)
    );
    Ok(())
}

#[test]
fn no_symbols(rt: HostRuntime) -> Result<(), Fail> {
    let alloc = rt.alloc();
    let body = Body::One {
        file: Bytes::new(alloc),
        rows: Matrix::zeros(alloc, 0, 0)?,
    };
    assert_eq!(rt; verdict_on(alloc, 0, &[], body)?, Verdict::Valid);
    assert_eq!(rt;
        zero(alloc, 0, &[([1, 0], [0, 7])], 1, &[1])?,
        Verdict::Valid
    );
    Ok(())
}

// ---- files

// The header of a systematic session for a file of four bytes.
const HEADER: [u8; 32] =
    *b"BTS\x01\x02\x80\0\x02\0\0\0\0\0\0\0\x04\0\0\0\0\0\0\0\0\0\0\0\0\0\0\0\0";

// Behind the header: one file, two packets, and two rows.
const ONE: [u8; 32] =
    *b"C\0\0\0\0\x02P\0\0\0\0\x01\0\x01\x02P\0\0\0\0\x01\x01\x02\x06\x01\x02\x03\x04\x01\0\x01\x01";

// Two files that differ in symbol 0, and one packet.
const TWO: [u8; 27] =
    *b"C\x01\0\0\0\x01P\0\0\0\0\x01\x01\x02\x06\0\0\0\0\0\0\x02\x06\x01\0\x03\x06";

// No file, two packets, column 1 and two factors.
const ZERO: [u8; 28] =
    *b"C\x02\0\0\0\x02P\0\0\0\0\x01\0\x01\x02P\0\0\0\0\x01\0\x01\x03\0\x01\x01\x01";

// The header, and bytes behind it, of both together so many.
fn input(alloc: Global, count: usize, behind: &[u8]) -> Result<Vec<u8>, Fail> {
    let mut bytes = Vec::new(alloc);
    for byte in HEADER.iter().take(count) {
        bytes.push(*byte)?;
    }
    for byte in behind.iter().take(count.saturating_sub(32)) {
        bytes.push(*byte)?;
    }
    Ok(bytes)
}

// Where these bytes are no certificate, in reads of at most so many.
fn wrong_at(alloc: Global, bytes: Vec<u8>, most: usize) -> Option<u64> {
    let mut source = MemSource::new(bytes, most.max(1), Vec::new(alloc));
    match read_certificate(alloc, &mut source) {
        Err(CertEnd::Malformed { at }) => Some(at),
        _ => None,
    }
}

#[test]
fn cut_fields(rt: HostRuntime) -> Result<(), Fail> {
    let alloc = rt.alloc();
    for (count, at) in [
        (0, 0),
        (31, 0),
        (32, 32),
        (33, 33),
        (34, 34),
        (37, 34),
        (38, 38),
        (46, 38),
        (47, 47),
        (56, 56),
        (59, 56),
        (60, 60),
        (62, 62),
        (63, 62),
    ] {
        assert_eq!(rt; wrong_at(alloc, input(alloc, count, &ONE)?, 7), Some(at));
    }
    assert_eq!(rt; wrong_at(alloc, input(alloc, 64, &ONE)?, 1), None);
    Ok(())
}

// Where the bytes behind the header are wrong with this byte in one place.
fn broken_at(alloc: Global, behind: &[u8], place: usize, byte: u8) -> Result<Option<u64>, Fail> {
    let mut bytes = input(alloc, 100, behind)?;
    if place < bytes.len() {
        bytes[place] = byte;
    }
    Ok(wrong_at(alloc, bytes, 1000))
}

#[test]
fn broken_fields(rt: HostRuntime) -> Result<(), Fail> {
    let alloc = rt.alloc();
    for (place, byte, at) in [
        (0, b'C', 0),
        (4, 0, 0),
        (32, b'D', 32),
        (33, 3, 33),
        (34, 255, 34),
        (36, 33, 34),
        (38, b'B', 38),
        (47, 0, 47),
    ] {
        assert_eq!(rt; broken_at(alloc, &ONE, place, byte)?, Some(at));
    }
    // Symbol 2 of two, and column 2 of two.
    assert_eq!(rt; broken_at(alloc, &TWO, 50, 2)?, Some(47));
    assert_eq!(rt; broken_at(alloc, &ZERO, 57, 2)?, Some(56));
    Ok(())
}

#[test]
fn more_behind(rt: HostRuntime) -> Result<(), Fail> {
    let alloc = rt.alloc();
    let mut bytes = input(alloc, 60, &ZERO)?;
    bytes.push(0)?;
    assert_eq!(rt; wrong_at(alloc, bytes, 1000), Some(60));
    // A file without symbols has no symbol that is open.
    assert_eq!(rt;
        broken_at(alloc, b"C\x01\0\0\0\0\0\0\0\0", 15, 0)?,
        Some(38)
    );
    Ok(())
}

#[test]
fn failing_reads(rt: HostRuntime) -> Result<(), Fail> {
    let alloc = rt.alloc();
    for call in [1, 2, 5, 64, 65] {
        let fails = Vec::from_slice(alloc, &[call])?;
        let mut source = MemSource::new(input(alloc, 64, &ONE)?, 1, fails);
        let read = read_certificate(alloc, &mut source);
        assert!(rt; matches!(&read, Err(CertEnd::ReadFault)));
    }
    Ok(())
}

// The verdict on the certificate that is read, which is written as it was read.
fn read_and_written(alloc: Global, count: usize, behind: &[u8]) -> Result<Verdict, Fail> {
    let mut source = MemSource::new(input(alloc, count, behind)?, 5, Vec::new(alloc));
    let Ok(cert) = read_certificate(alloc, &mut source) else {
        return Err(Fail::new("not read"))
    };
    if !cert.is_fit() {
        return Err(Fail::new("doesn't fit"));
    }
    let mut sink = MemSink::with_room(alloc, count, 3, Vec::new(alloc))?;
    if write_certificate(&mut sink, &cert) != Ok(()) {
        return Err(Fail::new("not written"));
    }
    let bytes = input(alloc, count, behind)?;
    if sink.written() != bytes.as_slice() {
        return Err(Fail::new("written otherwise"));
    }
    let mut full = MemSink::with_room(alloc, count.saturating_sub(1), 100, Vec::new(alloc))?;
    if write_certificate(&mut full, &cert) != Err(WriteFault) {
        return Err(Fail::new("written without room"));
    }
    Ok(verify(alloc, &cert)?)
}

#[test]
fn reads_and_writes(rt: HostRuntime) -> Result<(), Fail> {
    let alloc = rt.alloc();
    assert_eq!(rt; read_and_written(alloc, 64, &ONE)?, Verdict::Valid);
    assert_eq!(rt; read_and_written(alloc, 59, &TWO)?, Verdict::Valid);
    assert_eq!(rt; read_and_written(alloc, 60, &ZERO)?, Verdict::Valid);
    Ok(())
}
