ghost use Rattle.std.specs.Prelude.{◌≡◌, ◌<◌, ◌++◌, false, length, OnOk, OnErr, codes};
ghost use Rattle.std.specs.Int.{w32, to_be_bytes};
ghost use Rattle.bats_io.specs.Faults.{Rose};
ghost use Rattle.bats_io.specs.Sink.{Appends, AppendsPrefix};
ghost use Rattle.bats_model.specs.Records.{header_record, packet_record};

use crate::header::header_bytes;
use bats_io::{Sink, write_whole};
use bats_model::{Packet, Session};
use byteorder::{BigEndian, ByteOrder};

// The first byte of a packet record.
const PACKET: u8 = b'P';

/// A write of a record failed. A prefix of the record was written.
#[derive(Clone, Copy, Debug, PartialEq, Eq)]
pub struct WriteFault;

fn write_bytes<K: Sink>(sink: &mut K, bytes: &[u8]) -> Result<(), WriteFault>
    ensures appended { OnOk result (Appends (K.state sink.old).written (K.state sink.new).written bytes.now) }
    ensures unflushed { OnOk result (0 < length bytes.now → (K.state sink.new).flushed ≡ false) }
    ensures still_unflushed { OnOk result ((K.state sink.old).flushed ≡ false → (K.state sink.new).flushed ≡ false) }
    ensures no_fault { OnOk result ((K.state sink.new).faults ≡ (K.state sink.old).faults) }
    ensures failed { OnErr result (Rose (K.state sink.old).faults (K.state sink.new).faults) }
    ensures prefix { OnErr result (AppendsPrefix (K.state sink.old).written (K.state sink.new).written bytes.now) }
{
    match write_whole(sink, bytes) {
        Ok(()) => Ok(()),
        Err(_) => Err(WriteFault),
    }
}

/// Writes the header record of a session, 32 bytes.
pub fn write_header<K: Sink>(sink: &mut K, session: &Session) -> Result<(), WriteFault>
    ensures appended { OnOk result (Appends (K.state sink.old).written (K.state sink.new).written (header_record session.now)) }
    ensures unflushed { OnOk result ((K.state sink.new).flushed ≡ false) }
    ensures no_fault { OnOk result ((K.state sink.new).faults ≡ (K.state sink.old).faults) }
    ensures failed { OnErr result (Rose (K.state sink.old).faults (K.state sink.new).faults) }
    ensures prefix { OnErr result (AppendsPrefix (K.state sink.old).written (K.state sink.new).written (header_record session.now)) }
{
    write_bytes(sink, &header_bytes(session))
}

// The tag and the number of the batch, before the coefficients.
fn packet_front(batch: u32) -> [u8; 5]
    ensures { result ≡ codes "P" ++ to_be_bytes w32 batch }
{
    let mut bytes = [PACKET, 0, 0, 0, 0];
    BigEndian::write_u32(&mut bytes[1..], batch);
    bytes
}

/// Writes the record of a packet of M coefficients and T payload bytes: 5 bytes, the coefficients, and the payload.
pub fn write_packet<K: Sink>(
    sink: &mut K,
    session: &Session,
    packet: &Packet,
) -> Result<(), WriteFault>
    requires coefs { length packet.now.coefs ≡ session.now.m }
    requires payload { length packet.now.payload ≡ session.now.t }
    ensures appended { OnOk result (Appends (K.state sink.old).written (K.state sink.new).written
        (packet_record packet.now.batch packet.now.coefs packet.now.payload)) }
    ensures unflushed { OnOk result ((K.state sink.new).flushed ≡ false) }
    ensures no_fault { OnOk result ((K.state sink.new).faults ≡ (K.state sink.old).faults) }
    ensures failed { OnErr result (Rose (K.state sink.old).faults (K.state sink.new).faults) }
    ensures prefix { OnErr result (AppendsPrefix (K.state sink.old).written (K.state sink.new).written
        (packet_record packet.now.batch packet.now.coefs packet.now.payload)) }
{
    write_bytes(sink, &packet_front(packet.batch))?;
    write_bytes(sink, packet.coefs.as_slice())?;
    write_bytes(sink, packet.payload.as_slice())
}
