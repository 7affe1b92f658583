ghost use Rattle.std.specs.Prelude.{ℕ, ◌≡◌, ◌≤◌, ◌∷◌, [], length};
ghost use Rattle.std.specs.Int.{w32, to_be_bytes};
ghost use Rattle.bats_model.specs.Bytes.{AreBytes};
ghost use Rattle.bats_model.specs.PacketFile.{IsItemAt, record_of, most_records};
ghost use Rattle.bats_model.specs.Records.{header_tag, packet_tag};
ghost use Rattle.bats_format.specs.Taking.{most_of_record, TakesFirst, TagIs, byte_of, TakesTag, TakesBody, TakesRecord};

use crate::filling::{fill, fill_part};
use crate::header::{header_bytes, read_header};
use bats_io::Source;
use bats_model::{Bytes, Item, Packet, ReadEnd, Session};
use byteorder::{BigEndian, ByteOrder};
use std::alloc::Global;

// Records of a packet file, headers counted, at most.
const MAX_RECORDS: u32 = 1048576;

// The first byte of a header record.
const HEADER_TAG: u8 = b'B';

// The first byte of a packet record.
const PACKET_TAG: u8 = b'P';

// What a record after the first begins as.
#[derive(Clone, Copy, Debug, PartialEq, Eq)]
enum Tag {
    Header,
    Packet,
}

// Reads what follows the first byte of the first header.
fn take_header<S: Source>(source: &mut S) -> Result<Session, ReadEnd>
    ensures { TakesFirst
        (S.state source.old)
        (S.state source.new)
        (header_tag ∷ []) result }
{
    let mut bytes = [HEADER_TAG; 32];
    fill_part(source, 0, &mut bytes[1..])?;
    match read_header(&bytes) {
        Ok(session) => Ok(session),
        Err(field) => Err(ReadEnd::BadHeader { field }),
    }
}

/// Reads the first header of an input. Where it begins with another byte than a header, that byte alone is read.
pub(crate) fn take_first<S: Source>(source: &mut S) -> Result<Session, ReadEnd>
    ensures { TakesFirst
        (S.state source.old)
        (S.state source.new)
        [] result }
{
    let mut bytes = [0; 1];
    match fill(source, &mut bytes) {
        Ok(0) => Err(ReadEnd::NoHeader),
        Ok(_) => {
            if bytes[0] != HEADER_TAG {
                return Err(ReadEnd::NoHeader);
            }
            take_header(source)
        }
        Err(_) => Err(ReadEnd::ReadFault),
    }
}

// What begins with this byte, after so many records.
fn tag_of(byte: u8, records: u32, at: u64) -> Result<Tag, ReadEnd>
    ensures { TagIs byte records at result }
{
    if records == MAX_RECORDS {
        return Err(ReadEnd::TooManyRecords);
    }
    if byte == HEADER_TAG {
        return Ok(Tag::Header);
    }
    if byte == PACKET_TAG {
        return Ok(Tag::Packet);
    }
    Err(ReadEnd::BadTag { at, byte })
}

// Reads the first byte of a record after the first, which is `None` at the end of the input.
fn take_tag<S: Source>(source: &mut S, records: u32, at: u64) -> Result<Option<Tag>, ReadEnd>
    ensures { TakesTag
        (S.state source.old)
        (S.state source.new)
        records at result }
{
    let mut bytes = [0; 1];
    match fill(source, &mut bytes) {
        Ok(0) => Ok(None),
        Ok(_) => match tag_of(bytes[0], records, at) {
            Ok(tag) => Ok(Some(tag)),
            Err(refusal) => Err(refusal),
        },
        Err(_) => Err(ReadEnd::ReadFault),
    }
}

// Reads what follows the first byte of a later header, which is the session's.
fn take_repeat<S: Source>(source: &mut S, session: &Session, at: u64) -> Result<Item, ReadEnd>
    ensures { TakesBody
        (S.state source.old)
        (S.state source.new)
        session.now at header_tag result }
{
    let header = header_bytes(session);
    // A getter tells the proof that the session is within its limits.
    let _m = session.m();
    let mut rest = [0; 31];
    fill_part(source, at, &mut rest)?;
    if rest[..] != header[1..] {
        return Err(ReadEnd::OtherSession { at });
    }
    Ok(Item::Header { at })
}

// The number whose bytes these are, the highest first.
fn number_in(bytes: &[u8; 4]) -> u32
    ensures { to_be_bytes w32 result ≡ bytes.now }
{
    BigEndian::read_u32(bytes)
}

// The bytes of this memory, which is not copied.
fn bytes_in(memory: Vec<u8>) -> Bytes
    ensures value { result ≡ memory.items }
    ensures bytes { AreBytes memory.items }
{
    let bytes = Bytes::from(memory);
    let _bytes = bytes.as_slice();
    bytes
}

// Reads what follows the first byte of a packet record, for which it takes memory first: M bytes and T bytes.
fn take_packet<S: Source>(
    alloc: Global,
    source: &mut S,
    session: &Session,
    at: u64,
) -> Result<Item, ReadEnd>
    ensures { TakesBody
        (S.state source.old)
        (S.state source.new)
        session.now at packet_tag result }
{
    let mut number = [0; 4];
    let mut coefs = vec![in alloc; 0; usize::from(session.m())]?;
    let mut payload = vec![in alloc; 0; usize::from(session.t())]?;
    fill_part(source, at, &mut number)?;
    fill_part(source, at, &mut coefs)?;
    fill_part(source, at, &mut payload)?;
    Ok(Item::Packet {
        at,
        packet: Packet {
            batch: number_in(&number),
            coefs: bytes_in(coefs),
            payload: bytes_in(payload),
        },
    })
}

/// Reads the next record after the first ones, which is `None` at the end of the input. Memory is taken once the first
/// byte of a packet was read.
pub(crate) fn take_record<S: Source>(
    alloc: Global,
    source: &mut S,
    session: &Session,
    records: u32,
    at: u64,
) -> Result<Option<Item>, ReadEnd>
    requires { records ≤ most_records }
    ensures { TakesRecord
        (S.state source.old)
        (S.state source.new)
        session.now records at result }
{
    match take_tag(source, records, at) {
        Ok(None) => Ok(None),
        Ok(Some(Tag::Header)) => Ok(Some(take_repeat(source, session, at)?)),
        Ok(Some(Tag::Packet)) => Ok(Some(take_packet(alloc, source, session, at)?)),
        Err(end) => Err(end),
    }
}

/// Bytes of the record of an item.
pub(crate) fn record_size(session: &Session, item: &Item) -> u64
    requires { (offset : ℕ) × IsItemAt session.now offset item.now }
    ensures size { result ≡ length (record_of session.now item.now) }
    ensures within { result ≤ most_of_record }
{
    let packet_size = 5 + u64::from(session.m()) + u64::from(session.t());
    match item {
        Item::Header { .. } => 32,
        Item::Packet { .. } => packet_size,
    }
}
