//! The listed packets of a certificate file.
ghost use Rattle.std.specs.Prelude.{ℕ, ◌≡◌, ◌≢◌, ◌≤◌, ◌+◌, ◌*◌, ◌^◌, length, take, drop, slice_index, IfOk, IfErr, MatchOption};
ghost use Rattle.std.specs.Int.{w32, to_be_bytes};
ghost use Rattle.bats_model.specs.Records.{packet_tag};
ghost use Rattle.bats_cert.specs.Shown.{most_listed};
ghost use Rattle.bats_cert.specs.CertificateFile.{Layout, packet_field, packet_fields};
ghost use Rattle.bats_cert.specs.steps.Parts.{Stops};
ghost use Rattle.bats_cert.specs.steps.Taken.{IsPacketOf, HasPacket, HasPackets};

use crate::cert_end::CertEnd;
use crate::certificate::Packets;
use crate::filling::take_field;
use bats_io::Source;
use bats_model::{Bytes, Packet, Session};
use byteorder::{BigEndian, ByteOrder};
use std::alloc::{AllocError, Global};

// The first byte of a packet record.
const PACKET_TAG: u8 = b'P';

// Where the first packet stands.
const PACKETS_AT: u64 = 38;

// Bytes of a packet's record.
fn record_size(session: &Session) -> usize
    ensures size { result ≡ 5 + session.now.m + session.now.t }
    ensures within { result ≤ 2085 }
{
    5 + usize::from(session.m()) + usize::from(session.t())
}

// The number of the batch in a record, behind its tag.
fn batch_in(written: &[u8]) -> u32
    requires { 5 ≤ length written.now }
    ensures { to_be_bytes w32 result ≡ take 4 (drop 1 written.now) }
{
    BigEndian::read_u32(&written[1..5])
}

// The packet whose record these bytes are, which is `None` where they begin with another byte than a packet.
fn read_packet(
    alloc: Global,
    session: &Session,
    written: &[u8],
) -> Result<Option<Packet>, AllocError>
    requires { length written.now ≡ 5 + session.now.m + session.now.t }
    ensures { IfOk result (λ found. MatchOption found
        (slice_index written.now 0 ≢ packet_tag) (IsPacketOf session.now written.now)) }
{
    if written[0] != PACKET_TAG {
        return Ok(None);
    }
    let payload_at = 5 + usize::from(session.m());
    let coefs = Bytes::copy_of(alloc, &written[5..payload_at])?;
    let payload = Bytes::copy_of(alloc, &written[payload_at..])?;
    let _coefs = coefs.as_slice();
    let _payload = payload.as_slice();
    Ok(Some(Packet {
        batch: batch_in(written),
        coefs,
        payload,
    }))
}

// Reads the record of a packet, which begins at the offset `at`, over the buffer.
fn take_packet<S: Source>(
    alloc: Global,
    source: &mut S,
    session: &Session,
    at: u64,
    written: &mut [u8],
) -> Result<Packet, CertEnd>
    requires { length written.old ≡ 5 + session.now.m + session.now.t }
    ensures ok { IfOk result (HasPacket (S.state source.old) (S.state source.new) session.now) }
    ensures err { IfErr result (λ end. (next : Layout)
        → Stops (packet_field session.now next) (S.state source.old) (S.state source.new) at (5 + session.now.m + session.now.t) end) }
{
    take_field(source, at, written)?;
    match read_packet(alloc, session, written)? {
        Some(packet) => Ok(packet),
        None => Err(CertEnd::Malformed { at }),
    }
}

/// Where packet `i` stands, or where the packets end, if there are so many.
pub(crate) fn packet_at(session: &Session, i: u32) -> u64
    requires { i ≤ most_listed }
    ensures value { result ≡ 38 + i * (5 + session.now.m + session.now.t) }
    ensures within { result ≤ 2 ^ 31 }
{
    PACKETS_AT + u64::from(i) * record_size(session) as u64
}

/// Reads so many packets.
pub(crate) fn take_packets<S: Source>(
    alloc: Global,
    source: &mut S,
    session: &Session,
    count: u32,
) -> Result<Packets, CertEnd>
    requires { count ≤ most_listed }
    ensures ok { IfOk result (HasPackets (S.state source.old) (S.state source.new) session.now count) }
    ensures err { IfErr result (λ end. (next : Layout)
        → Stops (packet_fields session.now count next) (S.state source.old) (S.state source.new) 38
        (count * (5 + session.now.m + session.now.t)) end) }
{
    let mut written = vec![in alloc; 0; record_size(session)]?;
    let mut packets = Packets::new(alloc);
    'packets: for i in 0..count {
        let at = packet_at(session, i);
        packets.push(take_packet(alloc, source, session, at, &mut written)?)?;
    }
    Ok(packets)
}
