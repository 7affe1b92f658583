//! Whether a certificate's numbers and lengths fit.
ghost use Rattle.std.specs.Prelude.{◌≡◌, ◌↔◌, IsTrue, All, length};
ghost use Rattle.bats_model.specs.Agreement.{IsFile};
ghost use Rattle.bats_model.specs.PacketFile.{HasShape};
ghost use Rattle.bats_cert.specs.Shown.{AreFactors, IsFit, IsFitBody};

use crate::certificate::{Body, Certificate};
use bats_model::{Bytes, Packet, Session};
use gf_rows::Matrix;

// Packets that a certificate lists, at most.
pub(crate) const MOST_LISTED: usize = 8193;

// Whether a packet is one of the session.
fn has_shape(session: &Session, packet: &Packet) -> bool
    ensures { IsTrue result ↔ HasShape session.now packet.now }
{
    let _batch = packet.batch;
    let coefs = packet.coefs.as_slice();
    let payload = packet.payload.as_slice();
    coefs.len() == usize::from(session.m()) && payload.len() == usize::from(session.t())
}

// Whether each packet is one of the session.
fn have_shape(session: &Session, packets: &[Packet]) -> bool
    ensures { IsTrue result ↔ All (HasShape session.now) packets.now }
{
    'packets: for i in 0..packets.len() {
        if !has_shape(session, &packets[i]) {
            return false;
        }
    }
    true
}

// Whether the bytes are as many as the session's file has.
fn is_file(session: &Session, file: &Bytes) -> bool
    ensures { IsTrue result ↔ IsFile session.now file.now }
{
    file.as_slice().len() as u64 == session.length()
}

// Whether there are so many rows, with a factor for each packet.
fn are_factors(packets: &[Packet], count: u32, rows: &Matrix) -> bool
    ensures { IsTrue result ↔ AreFactors packets.now count rows.now }
{
    rows.rows() == count && rows.cols() as usize == packets.len()
}

// Whether the body's numbers and lengths fit.
fn is_fit_body(session: &Session, packets: &[Packet], body: &Body) -> bool
    ensures { IsTrue result ↔ IsFitBody session.now packets.now body.now }
{
    match body {
        Body::One { file, rows } => {
            is_file(session, file) && are_factors(packets, session.symbols(), rows)
        }
        Body::Two {
            at_symbol,
            first,
            second,
            rows,
        } => {
            *at_symbol < session.symbols()
                && is_file(session, first)
                && is_file(session, second)
                && are_factors(packets, *at_symbol, rows)
        }
        Body::Zero { column, factors } => {
            *column < session.t() && factors.as_slice().len() == packets.len()
        }
    }
}

impl Certificate {
    /// Whether the certificate's numbers and lengths fit, which `verify` asks: at most 8,193 packets of the session's shape,
    /// files of its length, as many rows as the body's kind has, with a factor for each packet, and symbol and column in
    /// range.
    pub fn is_fit(&self) -> bool
        ensures { IsTrue result ↔ IsFit self.now }
    {
        let packets = self.packets.as_slice();
        packets.len() <= MOST_LISTED
            && have_shape(&self.session, packets)
            && is_fit_body(&self.session, packets, &self.body)
    }
}
