//! Certificate files, written.
ghost use Rattle.std.specs.Prelude.{◌≡◌, ◌<◌, ◌≤◌, ◌^◌, ◌∷◌, ◌++◌, [], false, All, length, OnOk, OnErr};
ghost use Rattle.std.specs.Int.{w16, w32, to_be_bytes};
ghost use Rattle.gf_rows.specs.Matrix.{IsMatrix};
ghost use Rattle.bats_io.specs.Faults.{Rose};
ghost use Rattle.bats_io.specs.Sink.{Appends, AppendsPrefix};
ghost use Rattle.bats_model.specs.PacketFile.{HasShape};
ghost use Rattle.bats_cert.specs.Shown.{IsFit};
ghost use Rattle.bats_cert.specs.CertificateFile.{certificate_tag, begin_bytes, packets_bytes, rows_bytes, body_bytes, certificate_bytes, kind_of};
ghost use Rattle.bats_cert.specs.steps.Written.{Writes};

use crate::beginning::CERTIFICATE_TAG;
use crate::certificate::{Body, Certificate};
use bats_format::{WriteFault, write_header, write_packet};
use bats_io::{Sink, write_whole};
use bats_model::{Packet, Session};
use byteorder::{BigEndian, ByteOrder};
use gf_rows::Matrix;

fn write_bytes<K: Sink>(sink: &mut K, bytes: &[u8]) -> Result<(), WriteFault>
    ensures { Writes
        (K.state sink.old)
        (K.state sink.new)
        bytes.now result }
{
    match write_whole(sink, bytes) {
        Ok(()) => Ok(()),
        Err(_) => Err(WriteFault),
    }
}

// The tag, the kind and the number of packets.
fn front_of(kind: u8, count: u32) -> [u8; 6]
    ensures { result ≡ certificate_tag ∷ kind ∷ [] ++ to_be_bytes w32 count }
{
    let mut bytes = [CERTIFICATE_TAG, kind, 0, 0, 0, 0];
    BigEndian::write_u32(&mut bytes[2..], count);
    bytes
}

// Writes what stands before the packets.
fn write_begin<K: Sink>(
    sink: &mut K,
    session: &Session,
    kind: u8,
    count: u32,
) -> Result<(), WriteFault>
    ensures { Writes
        (K.state sink.old)
        (K.state sink.new)
        (begin_bytes session.now kind count) result }
{
    write_header(sink, session)?;
    write_bytes(sink, &front_of(kind, count))?;
    Ok(())
}

// Writes the records of packets, one after another.
fn write_packets<K: Sink>(
    sink: &mut K,
    session: &Session,
    packets: &[Packet],
) -> Result<(), WriteFault>
    requires { All (HasShape session.now) packets.now }
    ensures { Writes
        (K.state sink.old)
        (K.state sink.new)
        (packets_bytes packets.now) result }
{
    'packets: for i in 0..packets.len() {
        write_packet(sink, session, &packets[i])?;
    }
    Ok(())
}

// Writes rows, one after another.
fn write_rows<K: Sink>(sink: &mut K, rows: &Matrix) -> Result<(), WriteFault>
    ensures { Writes
        (K.state sink.old)
        (K.state sink.new)
        (rows_bytes rows.now.rows) result }
{
    'rows: for s in 0..rows.rows() {
        write_bytes(sink, rows.row(s))?;
    }
    Ok(())
}

// The bytes of a number, the highest first.
fn number_bytes(number: u32) -> [u8; 4]
    ensures { result ≡ to_be_bytes w32 number }
{
    let mut bytes = [0; 4];
    BigEndian::write_u32(&mut bytes, number);
    bytes
}

// The bytes of a number, the highest first.
fn short_bytes(number: u16) -> [u8; 2]
    ensures { result ≡ to_be_bytes w16 number }
{
    let mut bytes = [0; 2];
    BigEndian::write_u16(&mut bytes, number);
    bytes
}

// Writes the symbol in which two files differ, the files and the rows.
fn write_two<K: Sink>(
    sink: &mut K,
    at_symbol: u32,
    first: &[u8],
    second: &[u8],
    rows: &Matrix,
) -> Result<(), WriteFault>
    ensures { Writes
        (K.state sink.old)
        (K.state sink.new)
        (to_be_bytes w32 at_symbol ++ first.now ++ second.now ++ rows_bytes rows.now.rows) result }
{
    write_bytes(sink, &number_bytes(at_symbol))?;
    write_bytes(sink, first)?;
    write_bytes(sink, second)?;
    write_rows(sink, rows)?;
    Ok(())
}

// Writes bytes, and then the rows.
fn write_one<K: Sink>(sink: &mut K, file: &[u8], rows: &Matrix) -> Result<(), WriteFault>
    ensures { Writes
        (K.state sink.old)
        (K.state sink.new)
        (file.now ++ rows_bytes rows.now.rows) result }
{
    write_bytes(sink, file)?;
    write_rows(sink, rows)?;
    Ok(())
}

// Writes the column in which no file agrees, and the factors.
fn write_zero<K: Sink>(sink: &mut K, column: u16, factors: &[u8]) -> Result<(), WriteFault>
    ensures { Writes
        (K.state sink.old)
        (K.state sink.new)
        (to_be_bytes w16 column ++ factors.now) result }
{
    write_bytes(sink, &short_bytes(column))?;
    write_bytes(sink, factors)?;
    Ok(())
}

// Writes what stands behind the packets.
fn write_body<K: Sink>(sink: &mut K, body: &Body) -> Result<(), WriteFault>
    ensures { Writes
        (K.state sink.old)
        (K.state sink.new)
        (body_bytes body.now) result }
{
    match body {
        Body::One { file, rows } => write_one(sink, file.as_slice(), rows),
        Body::Two {
            at_symbol,
            first,
            second,
            rows,
        } => write_two(sink, *at_symbol, first.as_slice(), second.as_slice(), rows),
        Body::Zero { column, factors } => write_zero(sink, *column, factors.as_slice()),
    }
}

// The byte that says which form the body has.
fn kind_byte(body: &Body) -> u8
    ensures { result ≡ kind_of body.now }
{
    match body {
        Body::One { .. } => 0,
        Body::Two { .. } => 1,
        Body::Zero { .. } => 2,
    }
}

// Writes the parts of a certificate.
fn write_parts<K: Sink>(sink: &mut K, cert: &Certificate) -> Result<(), WriteFault>
    requires { IsFit cert.now }
    ensures { Writes
        (K.state sink.old)
        (K.state sink.new)
        (certificate_bytes cert.now) result }
{
    let packets = cert.packets.as_slice();
    write_begin(
        sink,
        &cert.session,
        kind_byte(&cert.body),
        packets.len() as u32,
    )?;
    write_packets(sink, &cert.session, packets)?;
    write_body(sink, &cert.body)?;
    Ok(())
}

/// Writes the file of a certificate whose numbers and lengths fit. After an `Err` a prefix of it was written. It takes no memory.
pub fn write_certificate<K: Sink>(sink: &mut K, cert: &Certificate) -> Result<(), WriteFault>
    requires { IsFit cert.now }
    ensures appended { OnOk result (Appends (K.state sink.old).written (K.state sink.new).written (certificate_bytes cert.now)) }
    ensures unflushed { OnOk result ((K.state sink.new).flushed ≡ false) }
    ensures no_fault { OnOk result ((K.state sink.new).faults ≡ (K.state sink.old).faults) }
    ensures failed { OnErr result (Rose (K.state sink.old).faults (K.state sink.new).faults) }
    ensures prefix { OnErr result (AppendsPrefix (K.state sink.old).written (K.state sink.new).written (certificate_bytes cert.now)) }
{
    write_parts(sink, cert)?;
    Ok(())
}
