//! What stands before the packets of a certificate: its header, its tag, its kind and the number of packets.
ghost use Rattle.std.specs.Prelude.{ℕ, ◌≡◌, ◌≢◌, ◌<◌, ◌≤◌, ◌^◌, ◌∷◌, [], OnOk, IfOk, IfErr, MatchOption};
ghost use Rattle.std.specs.Int.{w32, to_be_bytes, from_be_bytes};
ghost use Rattle.bats_model.specs.Session.{SessionData, IsSession};
ghost use Rattle.bats_model.specs.Records.{header_record};
ghost use Rattle.bats_cert.specs.Shown.{most_listed};
ghost use Rattle.bats_cert.specs.CertificateFile.{Layout, certificate_tag, header_field, tag_field, kind_field, count_field, begin_fields};
ghost use Rattle.bats_cert.specs.steps.Parts.{HasRead, Stops, FieldStops};
ghost use Rattle.bats_cert.specs.steps.Taken.{byte_of, HasBegin};
ghost use Rattle.bats_cert.specs.declared.cert_end.CertEnd.TheVariants.{Memory};

use crate::cert_end::CertEnd;
use crate::filling::take_field;
use crate::fitting::MOST_LISTED;
use bats_format::read_header;
use bats_io::Source;
use bats_model::Session;
use byteorder::{BigEndian, ByteOrder};

/// The byte behind the header.
pub(crate) const CERTIFICATE_TAG: u8 = b'C';

// Where the tag stands, behind the header.
const TAG_AT: u64 = 32;

// Where the kind stands.
const KIND_AT: u64 = 33;

// Where the number of packets stands.
const COUNT_AT: u64 = 34;

/// Which form a certificate's body has.
#[derive(Clone, Copy, Debug, PartialEq, Eq)]
pub(crate) enum Kind {
    One,
    Two,
    Zero,
}

/// What stands before the packets.
#[derive(Debug, Drop)]
pub(crate) struct Begin {
    pub(crate) session: Session,
    pub(crate) kind: Kind,
    pub(crate) count: u32,
}

// Reads the header.
fn take_session<S: Source>(source: &mut S) -> Result<Session, CertEnd>
    ensures is_session { IfOk result IsSession }
    ensures ok { IfOk result (λ session. HasRead (S.state source.old) (S.state source.new) (header_record session)) }
    ensures err { IfErr result (λ end. (next : SessionData → Layout)
        → Stops (header_field next) (S.state source.old) (S.state source.new) 0 32 end) }
    ensures no_memory { IfErr result (λ end. end ≢ Memory) }
{
    let mut bytes = [0; 32];
    take_field(source, 0, &mut bytes)?;
    match read_header(&bytes) {
        Ok(session) => {
            // A getter tells the proof that the session is within its limits.
            let _m = session.m();
            Ok(session)
        }
        Err(_) => Err(CertEnd::Malformed { at: 0 }),
    }
}

// Reads the tag.
fn take_tag<S: Source>(source: &mut S) -> Result<(), CertEnd>
    ensures ok { OnOk result (HasRead (S.state source.old) (S.state source.new) (certificate_tag ∷ [])) }
    ensures err { IfErr result (λ end. (next : Layout)
        → Stops (tag_field next) (S.state source.old) (S.state source.new) 32 1 end) }
    ensures no_memory { IfErr result (λ end. end ≢ Memory) }
{
    let mut bytes = [0; 1];
    take_field(source, TAG_AT, &mut bytes)?;
    if bytes[0] != CERTIFICATE_TAG {
        return Err(CertEnd::Malformed { at: TAG_AT });
    }
    Ok(())
}

// The kind whose byte this is.
fn kind_in(byte: u8) -> Option<Kind>
    ensures { MatchOption result (2 < byte) (λ kind. byte ≡ byte_of kind) }
{
    match byte {
        0 => Some(Kind::One),
        1 => Some(Kind::Two),
        2 => Some(Kind::Zero),
        _ => None,
    }
}

// Reads the kind.
fn take_kind<S: Source>(source: &mut S) -> Result<Kind, CertEnd>
    ensures ok { IfOk result (λ kind. HasRead (S.state source.old) (S.state source.new) (byte_of kind ∷ [])) }
    ensures err { IfErr result (λ end. (next : ℕ → Layout)
        → Stops (kind_field next) (S.state source.old) (S.state source.new) 33 1 end) }
    ensures no_memory { IfErr result (λ end. end ≢ Memory) }
{
    let mut bytes = [0; 1];
    take_field(source, KIND_AT, &mut bytes)?;
    match kind_in(bytes[0]) {
        Some(kind) => Ok(kind),
        None => Err(CertEnd::Malformed { at: KIND_AT }),
    }
}

// The number whose bytes these are, the highest first.
fn number_in(bytes: &[u8; 4]) -> u32
    ensures number { result ≡ from_be_bytes w32 bytes.now }
    ensures bytes { to_be_bytes w32 result ≡ bytes.now }
{
    BigEndian::read_u32(bytes)
}

/// Reads a number of four bytes, which begins at the offset `at`.
pub(crate) fn take_number<S: Source>(source: &mut S, at: u64) -> Result<u32, CertEnd>
    ensures within { IfOk result (λ number. number < 2 ^ 32) }
    ensures ok { IfOk result (λ number. HasRead (S.state source.old) (S.state source.new) (to_be_bytes w32 number)) }
    ensures err { IfErr result (FieldStops (S.state source.old) (S.state source.new) at 4) }
    ensures no_memory { IfErr result (λ end. end ≢ Memory) }
{
    let mut bytes = [0; 4];
    take_field(source, at, &mut bytes)?;
    Ok(number_in(&bytes))
}

// Reads the number of packets.
fn take_count<S: Source>(source: &mut S) -> Result<u32, CertEnd>
    ensures few { IfOk result (λ count. count ≤ most_listed) }
    ensures ok { IfOk result (λ count. HasRead (S.state source.old) (S.state source.new) (to_be_bytes w32 count)) }
    ensures err { IfErr result (λ end. (next : ℕ → Layout)
        → Stops (count_field next) (S.state source.old) (S.state source.new) 34 4 end) }
    ensures no_memory { IfErr result (λ end. end ≢ Memory) }
{
    let count = take_number(source, COUNT_AT)?;
    if count as usize > MOST_LISTED {
        return Err(CertEnd::Malformed { at: COUNT_AT });
    }
    Ok(count)
}

/// Reads what stands before the packets, 38 bytes. It takes no memory.
pub(crate) fn take_begin<S: Source>(source: &mut S) -> Result<Begin, CertEnd>
    ensures ok { IfOk result (λ begin. HasBegin (S.state source.old) (S.state source.new) begin.session begin.kind begin.count) }
    ensures err { IfErr result (λ end. (next : SessionData → ℕ → ℕ → Layout)
        → Stops (begin_fields next) (S.state source.old) (S.state source.new) 0 38 end) }
    ensures no_memory { IfErr result (λ end. end ≢ Memory) }
{
    let session = take_session(source)?;
    take_tag(source)?;
    let kind = take_kind(source)?;
    let count = take_count(source)?;
    Ok(Begin {
        session,
        kind,
        count,
    })
}
