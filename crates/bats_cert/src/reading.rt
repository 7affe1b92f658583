ghost use Rattle.bats_cert.specs.CertificateReading.{ReadsCertificate};

use crate::beginning::take_begin;
use crate::bodies::take_body;
use crate::cert_end::CertEnd;
use crate::certificate::Certificate;
use crate::listing::{packet_at, take_packets};
use bats_io::Source;
use std::alloc::Global;

/// Reads a certificate file to its end: the certificate whose bytes it is, which fits. Where it is none's, the place of the first
/// field that is cut or breaks its rule is told, or that of the first byte behind the last field. Memory is taken once the
/// number of packets was read and is one that a certificate may have.
pub fn read_certificate<S: Source>(alloc: Global, source: &mut S) -> Result<Certificate, CertEnd>
    ensures { ReadsCertificate
        (S.state source.old)
        (S.state source.new)
        result }
{
    let begin = take_begin(source)?;
    let session = begin.session;
    let count = begin.count;
    let packets = take_packets(alloc, source, &session, count)?;
    let at = packet_at(&session, count);
    let body = take_body(alloc, source, &session, begin.kind, count, at)?;
    Ok(Certificate {
        session,
        packets,
        body,
    })
}
