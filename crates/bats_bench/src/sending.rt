//! The packets that come of a file in a benchmark.
ghost use Rattle.std.specs.Prelude.{◌≡◌};
ghost use Rattle.bats_model.specs.Batch.{batch_of};

use crate::draws::Draws;
use bats_encoder::Encoder;
use bats_model::{BadSession, Batch, Packet, Session};
use bats_sampler::batch;
use std::alloc::{AllocError, Global};

/// A file's session, and which of its packets come.
#[derive(Clone, Copy)]
pub struct Case {
    /// Packets of a batch.
    pub m: u8,
    /// Bytes of a symbol.
    pub t: u16,
    /// Bytes of the file.
    pub length: u64,
    /// Whether the first batches carry the symbols as they are.
    pub systematic: bool,
    /// The batches that are sent, from 0 on.
    pub batches: u32,
    /// Whether every fifth packet is lost.
    pub lossy: bool,
}

impl Case {
    /// The session, whose seed is the bytes 0 to 15.
    pub fn session(&self) -> Result<Session, BadSession> {
        let seed = [0, 1, 2, 3, 4, 5, 6, 7, 8, 9, 10, 11, 12, 13, 14, 15];
        Session::new(self.m, self.t, self.length, 0, self.systematic, seed)
    }
}

// Counts the packets that are sent, and tells which are lost.
#[derive(Drop)]
struct Line {
    lossy: bool,
    sent: u32,
}

impl Line {
    // Whether the next packet comes.
    fn carries(&mut self) -> bool {
        self.sent = self.sent.wrapping_add(1);
        !(self.lossy && self.sent % 5 == 0)
    }
}

// Appends the packets of a batch that come.
fn send_batch(
    session: &Session,
    encoder: &Encoder,
    batch: &Batch,
    line: &mut Line,
    packets: &mut Vec<Packet>,
) -> Result<(), AllocError>
    requires session { encoder.now.session ≡ session.now }
    requires batch { batch.now ≡ batch_of encoder.now.session batch.now.number }
{
    for j in 0..u32::from(session.m()) {
        if line.carries() {
            packets.push(encoder.coded(batch, j)?)?;
        }
    }
    Ok(())
}

// Appends the packets of the batch of this number that come.
fn send_numbered(
    alloc: Global,
    session: &Session,
    encoder: &Encoder,
    number: u32,
    line: &mut Line,
    packets: &mut Vec<Packet>,
) -> Result<(), AllocError>
    requires session { encoder.now.session ≡ session.now }
{
    let batch = batch(alloc, session, number)?;
    send_batch(session, encoder, &batch, line, packets)
}

/// The packets of a case that come, batch by batch, of a file without a pattern.
pub fn packets_of(
    alloc: Global,
    case: &Case,
    session: &Session,
) -> Result<Vec<Packet>, AllocError> {
    let mut packets = Vec::new(alloc);
    let mut line = Line {
        lossy: case.lossy,
        sent: 0,
    };
    let file = Draws::new(4).bytes(alloc, session.length() as usize)?;
    if let Ok(encoder) = Encoder::new(alloc, *session, file) {
        for number in 0..case.batches {
            send_numbered(alloc, session, &encoder, number, &mut line, &mut packets)?;
        }
    }
    Ok(packets)
}
