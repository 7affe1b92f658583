//! What stands behind the packets of a certificate file, up to its end.
ghost use Rattle.std.specs.Prelude.{ℕ, ◌≡◌, ◌<◌, ◌≤◌, ◌+◌, ◌*◌, ◌^◌, length, IfOk, IfErr, OnOk};
ghost use Rattle.std.specs.Int.{w16, w32, to_be_bytes, from_be_bytes};
ghost use Rattle.gf_core.specs.Bytes.{AreBytes};
ghost use Rattle.bats_model.specs.Session.{symbols_of};
ghost use Rattle.bats_cert.specs.Shown.{most_listed};
ghost use Rattle.bats_cert.specs.CertificateFile.{Layout, any, fields, symbol_field, column_field, row_fields, one_fields, two_fields, zero_fields, body_fields};
ghost use Rattle.bats_cert.specs.steps.Parts.{HasRead, Stops, FieldStops};
ghost use Rattle.bats_cert.specs.steps.Taken.{byte_of, HasSize, HasRows, HasLastRows, HasBytes, HasBody, most_of_body};
ghost use Rattle.bats_cert.specs.declared.beginning.Kind.TheVariants as kinds;

use crate::beginning::{Kind, take_number};
use crate::cert_end::CertEnd;
use crate::certificate::Body;
use crate::filling::{take_end, take_field};
use bats_io::Source;
use bats_model::{Bytes, Session};
use byteorder::{BigEndian, ByteOrder};
use gf_rows::Matrix;
use std::alloc::Global;

// The bytes of this memory, which is not copied.
fn bytes_in(memory: Vec<u8>) -> Bytes
    ensures value { result ≡ memory.items }
    ensures bytes { AreBytes memory.items }
{
    let bytes = Bytes::from(memory);
    let _bytes = bytes.as_slice();
    bytes
}

// Reads a field of so many bytes, which begins at the offset `at`.
fn take_bytes<S: Source>(
    alloc: Global,
    source: &mut S,
    at: u64,
    size: usize,
) -> Result<Bytes, CertEnd>
    ensures ok { IfOk result (HasBytes (S.state source.old) (S.state source.new) size) }
    ensures err { IfErr result (FieldStops (S.state source.old) (S.state source.new) at size) }
{
    let mut memory = vec![in alloc; 0; size]?;
    take_field(source, at, &mut memory)?;
    Ok(bytes_in(memory))
}

// Reads a file of the session, which begins at the offset `at`.
fn take_file<S: Source>(
    alloc: Global,
    source: &mut S,
    session: &Session,
    at: u64,
) -> Result<Bytes, CertEnd>
    ensures ok { IfOk result (HasBytes (S.state source.old) (S.state source.new) session.now.file_length) }
    ensures err { IfErr result (FieldStops (S.state source.old) (S.state source.new) at session.now.file_length) }
{
    let size = session.length() as usize;
    let bytes = take_bytes(alloc, source, at, size)?;
    Ok(bytes)
}

// Reads each row of the matrix over the buffer, and writes it. The first begins at the offset `at`.
fn fill_rows<S: Source>(
    source: &mut S,
    at: u64,
    row: &mut [u8],
    rows: &mut Matrix,
) -> Result<(), CertEnd>
    requires place { at ≤ 2 ^ 32 }
    requires few_rows { length rows.old.rows ≤ 4096 }
    requires few_columns { rows.old.cols ≤ most_listed }
    requires width { length row.old ≡ rows.old.cols }
    ensures ok { OnOk result (HasRows (S.state source.old) (S.state source.new) (length rows.old.rows) rows.old.cols rows.new) }
    ensures err { IfErr result (λ end. (next : Layout)
        → Stops (fields (length rows.old.rows) rows.old.cols any next) (S.state source.old) (S.state source.new) at
        (length rows.old.rows * rows.old.cols) end) }
{
    let width = u64::from(rows.cols());
    'rows: for s in 0..rows.rows() {
        take_field(source, at + u64::from(s) * width, row)?;
        rows.set_row(s, row);
    }
    Ok(())
}

// Reads so many rows of so many factors, the first of which begins at the offset `at`, and finds nothing behind them.
fn take_last_rows<S: Source>(
    alloc: Global,
    source: &mut S,
    at: u64,
    symbols: u32,
    count: u32,
) -> Result<Matrix, CertEnd>
    requires place { at ≤ 2 ^ 32 }
    requires few_rows { symbols ≤ 4096 }
    requires few_columns { count ≤ most_listed }
    ensures ok { IfOk result (HasLastRows (S.state source.old) (S.state source.new) symbols count) }
    ensures err { IfErr result (Stops (row_fields symbols count) (S.state source.old) (S.state source.new) at (symbols * count + 1)) }
{
    let mut row = vec![in alloc; 0; count as usize]?;
    let mut rows = Matrix::zeros(alloc, symbols, count)?;
    fill_rows(source, at, &mut row, &mut rows)?;
    take_end(source, at + u64::from(symbols) * u64::from(count))?;
    Ok(rows)
}

// Reads what stands behind so many packets where there is one file.
fn take_one<S: Source>(
    alloc: Global,
    source: &mut S,
    session: &Session,
    count: u32,
    at: u64,
) -> Result<Body, CertEnd>
    requires place { at ≤ 2 ^ 31 }
    requires few { count ≤ most_listed }
    ensures ok { IfOk result (HasBody (S.state source.old) (S.state source.new) session.now kinds.One count) }
    ensures err { IfErr result (Stops (one_fields session.now count) (S.state source.old) (S.state source.new) at most_of_body) }
{
    let length = session.length();
    let file = take_file(alloc, source, session, at)?;
    let rows = take_last_rows(alloc, source, at + length, session.symbols(), count)?;
    Ok(Body::One { file, rows })
}

// Reads the symbol in which two files differ.
fn take_symbol<S: Source>(source: &mut S, session: &Session, at: u64) -> Result<u32, CertEnd>
    ensures within { IfOk result (λ s. s < symbols_of session.now) }
    ensures ok { IfOk result (λ s. HasRead (S.state source.old) (S.state source.new) (to_be_bytes w32 s)) }
    ensures err { IfErr result (λ end. (next : ℕ → Layout)
        → Stops (symbol_field session.now next) (S.state source.old) (S.state source.new) at 4 end) }
{
    let s = take_number(source, at)?;
    if s >= session.symbols() {
        return Err(CertEnd::Malformed { at });
    }
    Ok(s)
}

// Reads what stands behind so many packets where there are two files.
fn take_two<S: Source>(
    alloc: Global,
    source: &mut S,
    session: &Session,
    count: u32,
    at: u64,
) -> Result<Body, CertEnd>
    requires place { at ≤ 2 ^ 31 }
    requires few { count ≤ most_listed }
    ensures ok { IfOk result (HasBody (S.state source.old) (S.state source.new) session.now kinds.Two count) }
    ensures err { IfErr result (Stops (two_fields session.now count) (S.state source.old) (S.state source.new) at most_of_body) }
{
    let length = session.length();
    let at_symbol = take_symbol(source, session, at)?;
    let first = take_file(alloc, source, session, at + 4)?;
    let second = take_file(alloc, source, session, at + 4 + length)?;
    let rows = take_last_rows(alloc, source, at + 4 + 2 * length, at_symbol, count)?;
    Ok(Body::Two {
        at_symbol,
        first,
        second,
        rows,
    })
}

// The number whose bytes these are, the highest first.
fn short_in(bytes: &[u8; 2]) -> u16
    ensures number { result ≡ from_be_bytes w16 bytes.now }
    ensures bytes { to_be_bytes w16 result ≡ bytes.now }
{
    BigEndian::read_u16(bytes)
}

// Reads the column in which no file agrees.
fn take_column<S: Source>(source: &mut S, session: &Session, at: u64) -> Result<u16, CertEnd>
    ensures within { IfOk result (λ column. column < session.now.t) }
    ensures ok { IfOk result (λ column. HasRead (S.state source.old) (S.state source.new) (to_be_bytes w16 column)) }
    ensures err { IfErr result (λ end. (next : Layout)
        → Stops (column_field session.now next) (S.state source.old) (S.state source.new) at 2 end) }
{
    let mut bytes = [0; 2];
    take_field(source, at, &mut bytes)?;
    let column = short_in(&bytes);
    if column >= session.t() {
        return Err(CertEnd::Malformed { at });
    }
    Ok(column)
}

// Reads what stands behind so many packets where there is no file.
fn take_zero<S: Source>(
    alloc: Global,
    source: &mut S,
    session: &Session,
    count: u32,
    at: u64,
) -> Result<Body, CertEnd>
    requires place { at ≤ 2 ^ 31 }
    requires few { count ≤ most_listed }
    ensures ok { IfOk result (HasBody (S.state source.old) (S.state source.new) session.now kinds.Zero count) }
    ensures err { IfErr result (Stops (zero_fields session.now count) (S.state source.old) (S.state source.new) at most_of_body) }
{
    // A getter tells the proof that the session is within its limits.
    let _m = session.m();
    let column = take_column(source, session, at)?;
    let factors = take_bytes(alloc, source, at + 2, count as usize)?;
    take_end(source, at + 2 + u64::from(count))?;
    Ok(Body::Zero { column, factors })
}

/// Reads what stands behind so many packets, from the offset `at` on, up to the end.
pub(crate) fn take_body<S: Source>(
    alloc: Global,
    source: &mut S,
    session: &Session,
    kind: Kind,
    count: u32,
    at: u64,
) -> Result<Body, CertEnd>
    requires place { at ≤ 2 ^ 31 }
    requires few { count ≤ most_listed }
    ensures ok { IfOk result (HasBody (S.state source.old) (S.state source.new) session.now kind count) }
    ensures err { IfErr result (Stops (body_fields session.now (byte_of kind) count)
        (S.state source.old) (S.state source.new) at most_of_body) }
{
    match kind {
        Kind::One => take_one(alloc, source, session, count, at),
        Kind::Two => take_two(alloc, source, session, count, at),
        Kind::Zero => take_zero(alloc, source, session, count, at),
    }
}
