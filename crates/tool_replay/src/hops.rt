//! The hops of a trial: packets that are sent, of which some are lost.
ghost use Rattle.std.specs.Prelude.{◌≡◌, ◌<◌, ◌≤◌, ◌+◌, ◌*◌, ◌∷◌, [], ℕ, length, map, flat_map, IfOk, OnOk};
ghost use Rattle.std.specs.List.{range_with_len};
ghost use Rattle.bats_batch.specs.Held.{kept_at};
ghost use Rattle.bats_model.specs.Batch.{batch_of};
ghost use Rattle.bats_relay.specs.Mixer.{HasSentOne, sent_of};
ghost use Rattle.bats_relay.specs.Rule.{fixed_count};
ghost use Rattle.bats_world.specs.World.{source_packet};
ghost use Rattle.tool_replay.specs.Trial.{loss_key};
ghost use Rattle.tool_replay.specs.steps.Hops.{HasSentOf, Sends, coded_batch, held_outputs, is_lost_by, most_sent, output_of};

use crate::trial_keys::loss_key;
use bats_encoder::Encoder;
use bats_model::{Batch, Packet, Session};
use bats_relay::{Mixer, fixed_outputs};
use bats_sampler::{batch, key_word};
use std::alloc::{AllocError, Global};

/// The packets of one hop: how many were sent so far, and those of them that arrived.
#[derive(Drop)]
pub(crate) struct Hop {
    /// The key by which packets are lost.
    pub key: [u8; 32],
    /// How many packets of a hundred are lost.
    pub loss: u32,
    /// How many packets were sent.
    pub sent: u32,
    /// Those of them that arrived, in order.
    pub arrived: Vec<Packet>,
}

impl Hop {
    /// A hop on which nothing was sent.
    pub fn new(alloc: Global, number: u64, hop: u32, loss: u32) -> Hop
        ensures key { result.key ≡ loss_key number hop }
        ensures loss { result.loss ≡ loss }
        ensures sent { result.sent ≡ 0 }
        ensures arrived { result.arrived.items ≡ [] }
    {
        Hop {
            key: loss_key(number, hop),
            loss,
            sent: 0,
            arrived: Vec::new(alloc),
        }
    }

    // Whether the next packet is lost.
    fn loses_next(&self) -> bool
        ensures { result ≡ is_lost_by self.now.key self.now.loss self.now.sent }
    {
        let word = key_word(&self.key, self.sent);
        u64::from(word) * 100 / (1 << 32) < u64::from(self.loss)
    }

    // Sends one more packet, which arrives or is lost.
    fn send(&mut self, packet: Packet) -> Result<(), AllocError>
        requires { self.old.sent < most_sent }
        ensures { OnOk result (Sends (packet ∷ []) self.old self.new) }
    {
        let lost = self.loses_next();
        self.sent += 1;
        if lost {
            return Ok(());
        }
        self.arrived.push(packet)?;
        Ok(())
    }
}

// Sends the source's packet of a column of a batch.
fn send_coded(
    hop: &mut Hop,
    encoder: &Encoder,
    batch: &Batch,
    column: u32,
) -> Result<(), AllocError>
    requires batch { batch.now ≡ batch_of encoder.now.session batch.now.number }
    requires column { column < encoder.now.session.m }
    requires room { hop.old.sent < most_sent }
    ensures { OnOk result (Sends
        (source_packet encoder.now.session encoder.now.file batch.now.number column ∷ []) hop.old hop.new) }
{
    let packet = encoder.coded(batch, column)?;
    hop.send(packet)
}

// Sends the source's packets of a batch, columns rising.
fn send_columns(
    hop: &mut Hop,
    session: &Session,
    encoder: &Encoder,
    batch: &Batch,
) -> Result<(), AllocError>
    requires session { encoder.now.session ≡ session.now }
    requires batch { batch.now ≡ batch_of encoder.now.session batch.now.number }
    requires room { hop.old.sent + session.now.m ≤ most_sent }
    ensures { OnOk result (Sends
        (coded_batch encoder.now.session encoder.now.file batch.now.number) hop.old hop.new) }
{
    'columns: for column in 0..u32::from(session.m()) {
        send_coded(hop, encoder, batch, column)?;
    }
    Ok(())
}

// Sends the source's packets of the batch with this number.
fn send_numbered(
    alloc: Global,
    hop: &mut Hop,
    session: &Session,
    encoder: &Encoder,
    number: u32,
) -> Result<(), AllocError>
    requires session { encoder.now.session ≡ session.now }
    requires room { hop.old.sent + session.now.m ≤ most_sent }
    ensures { OnOk result (Sends
        (coded_batch encoder.now.session encoder.now.file number) hop.old hop.new) }
{
    let batch = batch(alloc, session, number)?;
    send_columns(hop, session, encoder, &batch)
}

/// Sends the source's packets of so many batches, numbers rising from 0.
pub(crate) fn send_coded_batches(
    alloc: Global,
    hop: &mut Hop,
    session: &Session,
    encoder: &Encoder,
    batches: u32,
) -> Result<(), AllocError>
    requires session { encoder.now.session ≡ session.now }
    requires unsent { hop.old.sent ≡ 0 }
    requires room { batches * session.now.m ≤ most_sent }
    ensures { OnOk result (Sends
        (flat_map (coded_batch encoder.now.session encoder.now.file) (range_with_len 0 batches)) hop.old hop.new) }
{
    'batches: for number in 0..batches {
        send_numbered(alloc, hop, session, encoder, number)?;
    }
    Ok(())
}

// Sends the next output of a batch that a relay holds.
fn send_output(hop: &mut Hop, mixer: &mut Mixer, batch: u32) -> Result<(), AllocError>
    requires held { 0 < length (kept_at mixer.old.held.batches batch) }
    requires few { sent_of mixer.old batch < 32 }
    requires room { hop.old.sent < most_sent }
    ensures sends { OnOk result (Sends (output_of mixer.old batch (sent_of mixer.old batch) ∷ []) hop.old hop.new) }
    ensures sent { OnOk result (HasSentOne batch mixer.old mixer.new) }
{
    match mixer.next_of(batch)? {
        Some(packet) => hop.send(packet),
        None => unreachable!(),
    }
}

// How many outputs a relay sends of a batch: m where it holds the batch, else none.
fn count_of(mixer: &Mixer, m: u8, batch: u32) -> u32
    ensures { result ≡ fixed_count m (length (kept_at mixer.now.held.batches batch)) }
{
    match mixer.held().basis_of(batch) {
        Some(basis) => fixed_outputs(u32::from(m), basis.rank()),
        None => 0,
    }
}

// Sends a relay's outputs of a batch, of which it has made none.
fn send_mixed(hop: &mut Hop, mixer: &mut Mixer, m: u8, batch: u32) -> Result<(), AllocError>
    requires size { m ≤ 32 }
    requires unsent { sent_of mixer.old batch ≡ 0 }
    requires room { hop.old.sent + m ≤ most_sent }
    ensures sends { OnOk result (Sends (held_outputs mixer.old m batch) hop.old hop.new) }
    ensures sent { OnOk result (HasSentOf batch mixer.old mixer.new) }
{
    let count = count_of(mixer, m, batch);
    'outputs: while mixer.sent(batch) < count {
        send_output(hop, mixer, batch)?;
    }
    Ok(())
}

/// Sends the outputs of a relay, which has made none, for those of so many batches that it holds, numbers rising from 0: m
/// of each.
pub(crate) fn send_mixed_batches(
    hop: &mut Hop,
    mixer: &mut Mixer,
    m: u8,
    batches: u32,
) -> Result<(), AllocError>
    requires size { m ≤ 32 }
    requires none { (batch : ℕ) → sent_of mixer.old batch ≡ 0 }
    requires unsent { hop.old.sent ≡ 0 }
    requires room { batches * m ≤ most_sent }
    ensures { OnOk result (Sends
        (flat_map (held_outputs mixer.old m) (range_with_len 0 batches)) hop.old hop.new) }
{
    'batches: for batch in 0..batches {
        send_mixed(hop, mixer, m, batch)?;
    }
    Ok(())
}
