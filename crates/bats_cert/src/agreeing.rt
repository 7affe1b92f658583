//! Whether a file agrees with packets.
ghost use Rattle.std.specs.Prelude.{ℕ, ◌≡◌, ◌<◌, ◌≤◌, ◌↔◌, ◌+◌, ◌-◌, ◌*◌, min, IfOk, IsTrue, All, length, replicate, slice_index};
ghost use Rattle.gf_core.specs.Rows.{add_scaled_row};
ghost use Rattle.bats_model.specs.Session.{symbols_of};
ghost use Rattle.bats_model.specs.Symbol.{symbol_byte};
ghost use Rattle.bats_model.specs.Agreement.{IsFile, Agrees, AgreesWithAll};
ghost use Rattle.bats_model.specs.PacketFile.{HasShape};
ghost use Rattle.bats_cert.specs.Sums.{symbol_row};
ghost use Rattle.bats_cert.specs.steps.Saying.{row_in_file, said_grid};

use bats_model::{Packet, Session};
use gf_core::Gf;
use gf_rows::{Matrix, add_scaled};
use std::alloc::{AllocError, Global};

/// The bytes of symbol `s` that the file has, at most T. The others are zeros.
pub(crate) fn symbol_of<'a>(session: &Session, file: &'a [u8], s: u32) -> &'a [u8]
    ensures size { length result.now ≡ min (s * session.now.t + session.now.t) (length file.now) - min (s * session.now.t) (length file.now) }
    ensures length { length result.now ≤ session.now.t }
    ensures bytes { (c : ℕ) → c < session.now.t → slice_index result.now c ≡ symbol_byte session.now file.now s c }
{
    let t = session.t() as usize;
    let start = (s as usize * t).min(file.len());
    let end = (start + t).min(file.len());
    &file[start..end]
}

// Adds `factor` times each byte of a symbol to the byte of `sum` at its place. Bytes past the end of the symbol stay as they
// are.
fn add_symbol(sum: &mut [u8], factor: Gf, symbol: &[u8])
    requires { length symbol.now ≤ length sum.old }
    ensures { sum.new ≡ add_scaled_row sum.old factor symbol.now }
{
    add_scaled(&mut sum[..symbol.len()], factor, symbol);
}

// Adds the file's symbols, each times the row's entry, to a payload of zeros.
fn add_symbols(payload: &mut [u8], session: &Session, row: &[u8], file: &[u8])
    requires width { length row.now ≡ symbols_of session.now }
    requires size { length payload.old ≡ session.now.t }
    requires zeros { payload.old ≡ replicate (length payload.old) 0 }
    ensures size { length payload.new ≡ session.now.t }
    ensures bytes { (c : ℕ) → c < session.now.t → slice_index payload.new c ≡ row_in_file session.now file.now c row.now }
{
    'symbols: for s in 0..session.symbols() {
        let factor = Gf::new(row[s as usize]);
        add_symbol(payload, factor, symbol_of(session, file, s));
    }
}

// Whether a packet's payload is what the file gives it, which is written over a payload of zeros.
fn agrees_by_sum(
    payload: &mut [u8],
    session: &Session,
    packet: &Packet,
    row: &[u8],
    file: &[u8],
) -> bool
    requires shape { HasShape session.now packet.now }
    requires row { row.now ≡ symbol_row session.now packet.now }
    requires is_file { IsFile session.now file.now }
    requires size { length payload.old ≡ session.now.t }
    requires zeros { payload.old ≡ replicate (length payload.old) 0 }
    ensures { IsTrue result ↔ Agrees session.now file.now packet.now }
{
    add_symbols(payload, session, row, file);
    *payload == *packet.payload.as_slice()
}

// Whether the file agrees with a packet, of which the row says what it says of each symbol.
fn packet_agrees(
    alloc: Global,
    session: &Session,
    packet: &Packet,
    row: &[u8],
    file: &[u8],
) -> Result<bool, AllocError>
    requires shape { HasShape session.now packet.now }
    requires row { row.now ≡ symbol_row session.now packet.now }
    requires is_file { IsFile session.now file.now }
    ensures { IfOk result (λ agrees. IsTrue agrees ↔ Agrees session.now file.now packet.now) }
{
    let mut payload = vec![in alloc; 0; usize::from(session.t())]?;
    Ok(agrees_by_sum(&mut payload, session, packet, row, file))
}

/// Whether the file agrees with all packets, of which `said` says what they say of each symbol.
pub(crate) fn file_agrees(
    alloc: Global,
    session: &Session,
    packets: &[Packet],
    said: &Matrix,
    file: &[u8],
) -> Result<bool, AllocError>
    requires shapes { All (HasShape session.now) packets.now }
    requires said { said.now ≡ said_grid session.now packets.now }
    requires is_file { IsFile session.now file.now }
    ensures { IfOk result (λ agrees. IsTrue agrees ↔ AgreesWithAll session.now packets.now file.now) }
{
    let _rows = said.rows();
    'packets: for i in 0..packets.len() {
        if !packet_agrees(alloc, session, &packets[i], said.row(i as u32), file)? {
            return Ok(false);
        }
    }
    Ok(true)
}
