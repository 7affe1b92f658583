//! An example for users of the libraries: a file is encoded, mixed by a relay and decoded, in memory, with no program around
//! it. Copy it and put a network between the three. A source needs bats_sampler and bats_encoder, a relay bats_relay, a
//! receiver bats_decode, each of them bats_model, and who offers packets bats_batch and gf_rows.
//!
//! Each batch is a few symbols of the file, mixed into as many packets as the session says. The relay keeps the packets
//! that come, and sends sums of those of one batch. Since sums of packets that tell the truth tell the truth, whatever was
//! lost or mixed on the way, a receiver either finds the file that was sent or says that it needs more packets.
//!
//! The clauses below say this of each step, and `send_in_memory` says it of the whole: where it answers a file, it is the
//! file that was sent. Each `requires` is what the step needs of its caller, and `HasTaken` and `HasReceived` (in
//! `specs/InMemory.antt`) say that nothing but the truth came so far.
ghost use Rattle.std.specs.Prelude.{ℕ, ◌≡◌, ◌≢◌, ◌<◌, List, IfOk, IsErr, OnOk, length};
ghost use Rattle.bats_model.specs.Batch.{batch_of};
ghost use Rattle.bats_world.specs.Standing.{IsHonestAnswer};
ghost use Rattle.bats_checks.specs.InMemory.{HasTaken, HasReceived};

use bats_batch::HeldEnd;
use bats_decode::Decoder;
use bats_encoder::{Encoder, OtherLength};
use bats_model::{Answer, Batch, Bytes, Session};
use bats_relay::{MAX_OUTPUTS, Mixer};
use bats_sampler::batch;
use gf_rows::Steps;
use std::alloc::{AllocError, Global};
use std::sync::ledger::Ledger;
use std::thread::Threads;

/// The seed of the relay: it says with which factors packets are summed. Each relay of a network has its own.
const RELAY_SEED: [u8; 16] = *b"the first relay.";

/// Why a file isn't sent.
#[derive(Clone, Copy, Debug, PartialEq, Eq)]
pub enum SendEnd {
    /// Memory ran out.
    Memory,
    /// The file's length isn't the one that the session declares.
    OtherLength,
    /// As many packets are kept as may be.
    Full,
}

impl From<AllocError> for SendEnd {
    fn from(_: AllocError) -> SendEnd {
        SendEnd::Memory
    }
}

impl From<HeldEnd> for SendEnd {
    fn from(end: HeldEnd) -> SendEnd {
        match end {
            HeldEnd::Memory => SendEnd::Memory,
            HeldEnd::Full => SendEnd::Full,
        }
    }
}

impl From<OtherLength> for SendEnd {
    fn from(_: OtherLength) -> SendEnd {
        SendEnd::OtherLength
    }
}

/// Sends a file over a relay, and tells what a receiver has of it then: the file, or that it needs more packets. Of each of
/// the first `batches` batches the source sends all packets, and the relay as many sums of them. The counters count the row
/// operations of offering and solving, on coefficients and on payloads; encoding and mixing aren't counted.
pub fn send_in_memory<R: Threads + Sync, C: Ledger, L: Ledger>(
    rt: &R,
    alloc: Global,
    session: Session,
    file: &[u8],
    batches: u32,
    coef_steps: &mut Steps<C>,
    steps: &mut Steps<L>,
) -> Result<Answer, SendEnd>
    // The answer is the file, or "need more", and never "inconsistent".
    ensures honest { IfOk result (IsHonestAnswer file.now) }

    // A file that isn't of the session's length is refused.
    ensures other_length { length file.now ≢ session.file_length → IsErr result }
{
    let encoder = Encoder::new(alloc, session, Bytes::copy_of(alloc, file)?)?;
    let mut relay = Mixer::new(alloc, session, RELAY_SEED);
    let mut receiver = Decoder::new(alloc, session);
    'batches: for number in 0..batches {
        send_batch(
            alloc, &session, &encoder, number, &mut relay, coef_steps, steps,
        )?;
        pass_batch(
            &session,
            &mut relay,
            number,
            &mut receiver,
            coef_steps,
            steps,
        )?;
    }
    let solved = receiver.solve(rt, 1, coef_steps, steps)?;
    Ok(solved.answer)
}

// The source sends all packets of a batch to the relay.
fn send_batch<C: Ledger, L: Ledger>(
    alloc: Global,
    session: &Session,
    encoder: &Encoder,
    number: u32,
    relay: &mut Mixer,
    coef_steps: &mut Steps<C>,
    steps: &mut Steps<L>,
) -> Result<(), SendEnd>
    requires encoder { encoder.now.session ≡ session.now }
    requires relay { relay.old.held.session ≡ session.now }
    requires taken { HasTaken encoder.now.file relay.old.held }
    ensures relay { relay.new.held.session ≡ session.now }
    ensures taken { OnOk result (HasTaken encoder.now.file relay.new.held) }
{
    let batch = batch(alloc, session, number)?;
    'columns: for column in 0..u32::from(session.m()) {
        send_packet(session, encoder, &batch, column, relay, coef_steps, steps)?;
    }
    Ok(())
}

// The source sends its packet of a column of a batch to the relay.
fn send_packet<C: Ledger, L: Ledger>(
    session: &Session,
    encoder: &Encoder,
    batch: &Batch,
    column: u32,
    relay: &mut Mixer,
    coef_steps: &mut Steps<C>,
    steps: &mut Steps<L>,
) -> Result<(), SendEnd>
    requires encoder { encoder.now.session ≡ session.now }
    requires of_session { batch.now ≡ batch_of session.now batch.now.number }
    requires column { column < session.now.m }
    requires relay { relay.old.held.session ≡ session.now }
    requires taken { HasTaken encoder.now.file relay.old.held }
    ensures relay { relay.new.held.session ≡ session.now }
    ensures taken { OnOk result (HasTaken encoder.now.file relay.new.held) }
{
    let packet = encoder.coded(batch, column)?;
    relay.offer(&packet, coef_steps, steps)?;
    Ok(())
}

// The relay sends as many sums of a batch to the receiver as the batch has packets.
fn pass_batch<C: Ledger, L: Ledger>(
    session: &Session,
    relay: &mut Mixer,
    number: u32,
    receiver: &mut Decoder,
    coef_steps: &mut Steps<C>,
    steps: &mut Steps<L>,
) -> Result<(), SendEnd>
    requires relay { relay.old.held.session ≡ session.now }
    requires receiver { receiver.old.held.session ≡ session.now }
    ensures held { relay.new.held ≡ relay.old.held }
    ensures receiver { receiver.new.held.session ≡ session.now }
    ensures received { OnOk result ((file : List ℕ) → HasTaken file relay.old.held → HasReceived file receiver.old
        → HasReceived file receiver.new) }
{
    'outputs: for _ in 0..session.m() {
        pass_packet(session, relay, number, receiver, coef_steps, steps)?;
    }
    Ok(())
}

// The relay sends the next sum of a batch to the receiver, where it holds the batch.
fn pass_packet<C: Ledger, L: Ledger>(
    session: &Session,
    relay: &mut Mixer,
    number: u32,
    receiver: &mut Decoder,
    coef_steps: &mut Steps<C>,
    steps: &mut Steps<L>,
) -> Result<(), SendEnd>
    requires relay { relay.old.held.session ≡ session.now }
    requires receiver { receiver.old.held.session ≡ session.now }
    ensures held { relay.new.held ≡ relay.old.held }
    ensures receiver { receiver.new.held.session ≡ session.now }
    ensures received { OnOk result ((file : List ℕ) → HasTaken file relay.old.held → HasReceived file receiver.old
        → HasReceived file receiver.new) }
{
    if relay.sent(number) >= MAX_OUTPUTS {
        return Ok(());
    }
    let Some(packet) = relay.next_of(number)? else {
        return Ok(());
    };
    receiver.offer(&packet, coef_steps, steps)?;
    Ok(())
}
