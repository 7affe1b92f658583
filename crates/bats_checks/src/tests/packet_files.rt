//! Headers and packet records as they are written and read, and the items of packet files up to their ends.
use bats_format::{Reader, WriteFault, header_bytes, read_header, write_header, write_packet};
use bats_io::{MemSink, MemSource, Source};
use bats_model::{Bytes, HeaderField, Item, Packet, ReadEnd, Session};
use std::alloc::Global;
use std::test::Fail;

// 2 packets a batch, 1 byte a symbol, a file of 5 bytes, table 1.
const HEADER: [u8; 32] = *b"BTS\x01\x02\x01\0\x01\0\0\0\0\0\0\0\x05abcdefghijklmnop";

#[test]
fn writes_and_reads_a_header(rt: HostRuntime) {
    let session = Session::new(2, 1, 5, 1, false, *b"abcdefghijklmnop");
    assert!(rt; session.is_ok());
    if let Ok(session) = session {
        assert_eq!(rt; header_bytes(&session), HEADER);
        assert_eq!(rt; read_header(&HEADER), Ok(session));
    }
}

#[test]
fn tells_the_first_broken_field(rt: HostRuntime) {
    for (place, byte, field) in [
        (11, 1, HeaderField::Length),
        (6, 9, HeaderField::SymbolSize),
        (5, 0x10, HeaderField::Mode),
        (4, 33, HeaderField::BatchSize),
        (3, 2, HeaderField::Version),
        (2, b'T', HeaderField::Magic),
    ] {
        let mut bytes = HEADER;
        bytes[place] = byte;
        bytes[15] = 6;
        assert_eq!(rt; read_header(&bytes), Err(field));
    }
}

const SYSTEMATIC_HEADER: [u8; 32] = *b"BTS\x01\x02\x80\0\x02\0\0\0\0\0\0\0\x04abcdefghijklmnop";

#[test]
fn writes_records(rt: HostRuntime) -> Result<(), Fail> {
    let alloc = rt.alloc();
    let session = Session::new(2, 2, 4, 0, true, *b"abcdefghijklmnop");
    let session = session.ok().ok_or("within the limits")?;
    let packet = Packet {
        batch: 0x0102_0304,
        coefs: Bytes::copy_of(alloc, &[5, 6])?,
        payload: Bytes::copy_of(alloc, &[7, 8])?,
    };
    let mut sink = MemSink::with_room(alloc, 45, 3, Vec::new(alloc))?;
    assert_eq!(rt; write_header(&mut sink, &session), Ok(()));
    assert_eq!(rt; sink.written(), SYSTEMATIC_HEADER.as_slice());
    assert_eq!(rt; write_packet(&mut sink, &session, &packet), Ok(()));
    assert_eq!(rt;
        &sink.written()[32..],
        b"P\x01\x02\x03\x04\x05\x06\x07\x08".as_slice()
    );
    assert_eq!(rt; write_packet(&mut sink, &session, &packet), Err(WriteFault));
    assert_eq!(rt; &sink.written()[41..], b"P\x01\x02\x03".as_slice());
    Ok(())
}

// Two packets of M = T = 2, after the header of a systematic session with the seed zero and a file of four bytes.
const FILE: [u8; 50] = [
    0x42, 0x54, 0x53, 1, 2, 0x80, 0, 2, 0, 0, 0, 0, 0, 0, 0, 4, 0, 0, 0, 0, 0, 0, 0, 0, 0, 0, 0, 0,
    0, 0, 0, 0, 0x50, 0, 0, 0, 0, 1, 0, 1, 2, 0x50, 0, 0, 0, 0, 0, 1, 3, 4,
];

// Some bytes of the file, and more bytes after them.
fn input(alloc: Global, count: usize, more: &[u8]) -> Result<Vec<u8>, Fail> {
    let mut bytes = Vec::new(alloc);
    for byte in FILE.iter().take(count) {
        bytes.push(*byte)?;
    }
    bytes.extend_from_slice(more)?;
    Ok(bytes)
}

// How many items come before the end of the input, or why it is refused, which is answered again.
fn count_items(alloc: Global, bytes: Vec<u8>, most: usize) -> Result<usize, ReadEnd> {
    let mut source = MemSource::new(bytes, most.max(1), Vec::new(alloc));
    let mut reader = Reader::open(&mut source)?;
    for count in 1..100 {
        match reader.next(alloc, &mut source) {
            Ok(Some(_)) => {}
            Ok(None) => {
                return match reader.next(alloc, &mut source) {
                    Ok(None) => Ok(count),
                    _ => Err(ReadEnd::Memory),
                };
            }
            Err(end) => {
                return match reader.next(alloc, &mut source) {
                    Err(again) if again == end => Err(end),
                    _ => Err(ReadEnd::Memory),
                };
            }
        }
    }
    Err(ReadEnd::Memory)
}

#[test]
fn reads_in_pieces_of_any_size(rt: HostRuntime) -> Result<(), Fail> {
    let alloc = rt.alloc();
    for most in [1, 3, 1000] {
        let file = input(alloc, 50, &[])?;
        let mut source = MemSource::new(file, most, Vec::new(alloc));
        let opened = Reader::open(&mut source);
        assert!(rt; opened.is_ok());
        let Ok(mut reader) = opened else {
            return Ok(())
        };
        assert_eq!(rt; reader.session().m(), 2);
        let second = reader.next(alloc, &mut source);
        assert!(rt; matches!(&second, Ok(Some(Item::Packet { at: 32, .. }))));
        if let Ok(Some(Item::Packet { packet, .. })) = second {
            assert_eq!(rt; packet.batch, 0);
            assert_eq!(rt; packet.coefs.as_slice(), [1, 0].as_slice());
            assert_eq!(rt; packet.payload.as_slice(), [1, 2].as_slice());
        }
        let third = reader.next(alloc, &mut source);
        assert!(rt; matches!(&third, Ok(Some(Item::Packet { at: 41, .. }))));
        if let Ok(Some(Item::Packet { packet, .. })) = third {
            assert_eq!(rt; packet.coefs.as_slice(), [0, 1].as_slice());
            assert_eq!(rt; packet.payload.as_slice(), [3, 4].as_slice());
        }
        assert!(rt; matches!(&reader.next(alloc, &mut source), Ok(None)));
        assert!(rt; matches!(&reader.next(alloc, &mut source), Ok(None)));
    }
    Ok(())
}

#[test]
fn refuses_at_the_place(rt: HostRuntime) -> Result<(), Fail> {
    let alloc = rt.alloc();
    for most in [1, 3, 1000] {
        let cut = Err(ReadEnd::Truncated { at: 32 });
        assert_eq!(rt; count_items(alloc, input(alloc, 40, &[])?, most), cut);
        assert_eq!(rt; count_items(alloc, input(alloc, 33, &[])?, most), cut);
        assert_eq!(rt; count_items(alloc, input(alloc, 32, &[])?, most), Ok(1));
        let cut = Err(ReadEnd::Truncated { at: 0 });
        assert_eq!(rt; count_items(alloc, input(alloc, 31, &[])?, most), cut);
        assert_eq!(rt;
            count_items(alloc, input(alloc, 0, &[])?, most),
            Err(ReadEnd::NoHeader)
        );
        assert_eq!(rt;
            count_items(alloc, input(alloc, 0, &[0])?, most),
            Err(ReadEnd::NoHeader)
        );
        let mut header = input(alloc, 32, &[])?;
        if let Some(size) = header.get_mut(4) {
            *size = 33;
        }
        let bad = Err(ReadEnd::BadHeader {
            field: HeaderField::BatchSize,
        });
        assert_eq!(rt; count_items(alloc, header, most), bad);
        let bad = Err(ReadEnd::BadTag { at: 32, byte: 0x51 });
        assert_eq!(rt; count_items(alloc, input(alloc, 32, &[0x51])?, most), bad);
    }
    Ok(())
}

// What is left of a source, up to four bytes.
fn left_of(source: &mut MemSource) -> [u8; 4] {
    let mut left = [0; 4];
    let _ = source.read(&mut left);
    left
}

#[test]
fn reads_one_byte_of_what_begins_no_record(rt: HostRuntime) -> Result<(), Fail> {
    let alloc = rt.alloc();
    let mut source = MemSource::new(b"XBTS".to_vec(alloc)?, 1000, Vec::new(alloc));
    assert!(rt; matches!(&Reader::open(&mut source), Err(ReadEnd::NoHeader)));
    assert_eq!(rt; &left_of(&mut source), b"BTS\0");
    let mut source = MemSource::new(input(alloc, 32, b"QPBX")?, 1000, Vec::new(alloc));
    let opened = Reader::open(&mut source);
    assert!(rt; opened.is_ok());
    let Ok(mut reader) = opened else {
        return Ok(())
    };
    assert!(rt;
        matches!(
            &reader.next(alloc, &mut source),
            Err(ReadEnd::BadTag { .. })
        )
    );
    assert_eq!(rt; &left_of(&mut source), b"PBX\0");
    Ok(())
}

#[test]
fn reads_repeats_of_the_header(rt: HostRuntime) -> Result<(), Fail> {
    let alloc = rt.alloc();
    for most in [1, 3, 1000] {
        assert_eq!(rt;
            count_items(alloc, input(alloc, 50, &FILE[..32])?, most),
            Ok(4)
        );
        let mut between = input(alloc, 32, &FILE[..32])?;
        between.extend_from_slice(&FILE[32..41])?;
        between.extend_from_slice(&FILE[..32])?;
        between.extend_from_slice(&FILE[41..])?;
        assert_eq!(rt; count_items(alloc, between, most), Ok(5));
        let mut other = input(alloc, 50, &FILE[..32])?;
        if let Some(seed) = other.last_mut() {
            *seed = 1;
        }
        let refusal = Err(ReadEnd::OtherSession { at: 50 });
        assert_eq!(rt; count_items(alloc, other, most), refusal);
        let cut = Err(ReadEnd::Truncated { at: 50 });
        assert_eq!(rt;
            count_items(alloc, input(alloc, 50, &FILE[..31])?, most),
            cut
        );
    }
    Ok(())
}

#[test]
fn answers_a_failed_read_again(rt: HostRuntime) -> Result<(), Fail> {
    let alloc = rt.alloc();
    let mut source = MemSource::new(input(alloc, 50, &[])?, 1000, vec![in alloc; 3]?);
    let opened = Reader::open(&mut source);
    assert!(rt; opened.is_ok());
    let Ok(mut reader) = opened else {
        return Ok(())
    };
    assert!(rt; matches!(&reader.next(alloc, &mut source), Err(ReadEnd::ReadFault)));
    assert!(rt; matches!(&reader.next(alloc, &mut source), Err(ReadEnd::ReadFault)));
    Ok(())
}
