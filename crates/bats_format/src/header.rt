ghost use Rattle.std.specs.Prelude.{◌≡◌, ◌==◌, ◌%◌, nat_le, slice_index, take, drop, IfOk, IfErr, OnOk, IsOkAnd, Some, None};
ghost use Rattle.std.specs.Int.{w16, w64, to_be_bytes};
ghost use Rattle.bats_model.specs.Session.{SessionData, IsSession};
ghost use Rattle.bats_model.specs.Records.{header_record, mode_of};
ghost use Rattle.bats_model.specs.Refusal.{first_broken, symbol_size_in, length_in};

use bats_model::{HeaderField, MAX_BATCH_SIZE, MAX_SYMBOL_SIZE, MAX_SYMBOLS, Session};
use byteorder::{BigEndian, ByteOrder};

const MAGIC: [u8; 3] = *b"BTS";

const VERSION: u8 = 1;

// Bit 7 of the mode byte.
const SYSTEMATIC: u8 = 128;

// Bit 7 for a systematic session, and the number of the degree table.
fn mode_byte(session: &Session) -> u8
    ensures { result ≡ mode_of session.now }
{
    if session.systematic() {
        SYSTEMATIC + session.table()
    } else {
        session.table()
    }
}

fn symbol_size_bytes(session: &Session) -> [u8; 2]
    ensures { result ≡ to_be_bytes w16 session.now.t }
{
    let mut bytes = [0; 2];
    BigEndian::write_u16(&mut bytes, session.t());
    bytes
}

fn length_bytes(session: &Session) -> [u8; 8]
    ensures { result ≡ to_be_bytes w64 session.now.file_length }
{
    let mut bytes = [0; 8];
    BigEndian::write_u64(&mut bytes, session.length());
    bytes
}

/// The header record of a session.
pub fn header_bytes(session: &Session) -> [u8; 32]
    ensures { result ≡ header_record session.now }
{
    let m = session.m();
    let mode = mode_byte(session);
    let t = symbol_size_bytes(session);
    let length = length_bytes(session);
    let mut bytes = [
        MAGIC[0], MAGIC[1], MAGIC[2], VERSION, m, mode, t[0], t[1], length[0], length[1],
        length[2], length[3], length[4], length[5], length[6], length[7], 0, 0, 0, 0, 0, 0, 0, 0,
        0, 0, 0, 0, 0, 0, 0, 0,
    ];
    bytes[16..].copy_from_slice(&session.seed());
    bytes
}

fn symbol_size(bytes: &[u8; 32]) -> u16
    ensures { result ≡ symbol_size_in bytes.now }
{
    BigEndian::read_u16(&bytes[6..8])
}

fn length(bytes: &[u8; 32]) -> u64
    ensures { result ≡ length_in bytes.now }
{
    BigEndian::read_u64(&bytes[8..16])
}

fn seed(bytes: &[u8; 32]) -> [u8; 16]
    ensures { result ≡ drop 16 bytes.now }
{
    let mut seed = [0; 16];
    seed.copy_from_slice(&bytes[16..]);
    seed
}

// The first field whose rule is broken, if one is.
#[tactic(auto, unfolding(bats_model::specs::Refusal::first_broken))]
fn broken_field(bytes: &[u8; 32]) -> Option<HeaderField>
    ensures { result ≡ first_broken bytes.now }
{
    let t = symbol_size(bytes);
    if &bytes[..3] != MAGIC.as_slice() {
        Some(HeaderField::Magic)
    } else if bytes[3] != VERSION {
        Some(HeaderField::Version)
    } else if bytes[4] == 0 || bytes[4] > MAX_BATCH_SIZE {
        Some(HeaderField::BatchSize)
    } else if bytes[5] % SYSTEMATIC > 1 {
        Some(HeaderField::Mode)
    } else if t == 0 || t > MAX_SYMBOL_SIZE {
        Some(HeaderField::SymbolSize)
    } else if length(bytes).div_ceil(u64::from(t)) > MAX_SYMBOLS {
        Some(HeaderField::Length)
    } else {
        None
    }
}

// The session of a header without a broken field.
fn session_in(bytes: &[u8; 32]) -> Session
    requires { first_broken bytes.now ≡ None }
    ensures value { result ≡ record {
      m = slice_index bytes.now 4;
      t = symbol_size_in bytes.now;
      file_length = length_in bytes.now;
      table = slice_index bytes.now 5 % 128;
      systematic = nat_le 128 (slice_index bytes.now 5);
      seed = drop 16 bytes.now;
    } }
    ensures within { IsSession result }
    ensures header { header_record result ≡ bytes.now }
{
    match Session::new(
        bytes[4],
        symbol_size(bytes),
        length(bytes),
        bytes[5] % SYSTEMATIC,
        bytes[5] >= SYSTEMATIC,
        seed(bytes),
    ) {
        Ok(session) => session,
        Err(_) => unreachable!(),
    }
}

/// The session whose header record these bytes are. An `Err` tells the first field whose rule is broken.
pub fn read_header(bytes: &[u8; 32]) -> Result<Session, HeaderField>
    ensures header { IfOk result (λ session. bytes.now ≡ header_record session) }
    ensures only { (session : SessionData) → IsSession session → bytes.now ≡ header_record session
        → IsOkAnd result (λ found. found ≡ session) }
    ensures sound { OnOk result (first_broken bytes.now ≡ None) }
    ensures broken { IfErr result (λ field. first_broken bytes.now ≡ Some field) }
{
    match broken_field(bytes) {
        Some(field) => Err(field),
        None => Ok(session_in(bytes)),
    }
}
