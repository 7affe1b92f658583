//! The chain of a trial: what arrives behind the source, and behind each relay.
ghost use Rattle.std.specs.Prelude.{◌≡◌, ◌<◌, ◌≤◌, ◌+◌, ◌*◌, ◌++◌, ◌∷◌, [], ℕ, List, All, length, sum_by, IfOk, OnOk};
ghost use Rattle.std.specs.List.{range_with_len};
ghost use Rattle.bats_batch.specs.Held.{StandsFor, max_kept, row_count};
ghost use Rattle.bats_model.specs.PacketFile.{HasShape};
ghost use Rattle.bats_model.specs.declared.packet.Packet.{Packet};
ghost use Rattle.bats_relay.specs.Mixer.{sent_of};
ghost use Rattle.bats_script.specs.Trial.{trial_file};
ghost use Rattle.bats_words.specs.Options.{HasTrialRanges};
ghost use Rattle.tool_replay.specs.Trial.{arrived, surviving, of_batches, relay_batch, sink_arrivals, source_batch, trial_session};
ghost use Rattle.tool_replay.specs.steps.Hops.{arrivals_before, most_sent};
ghost use Rattle.bats_words.specs.declared.trial_options.TrialOptions.{TrialOptions};

use crate::hops::{Hop, send_coded_batches, send_mixed_batches};
use crate::trial_keys::relay_seed;
use bats_batch::HeldEnd;
use bats_encoder::Encoder;
use bats_model::{Packet, Session};
use bats_relay::Mixer;
use bats_script::trial_file;
use bats_words::TrialOptions;
use std::alloc::{AllocError, Global};
use std::sync::ledger::Ledger;
use tool_records::Counters;

// The source, with its file.
fn encoder_of(
    alloc: Global,
    options: &TrialOptions,
    session: &Session,
) -> Result<Encoder, AllocError>
    requires ranges { HasTrialRanges options.now }
    requires session { session.now ≡ trial_session options.now }
    ensures { IfOk result (λ encoder. encoder ≡ record {
      session = session.now;
      file = trial_file options.now.number options.now.length;
    }) }
{
    let file = trial_file(alloc, options.number, options.length)?;
    match Encoder::new(alloc, *session, file) {
        Ok(encoder) => Ok(encoder),
        Err(_) => unreachable!(),
    }
}

// What arrives of the source's packets.
fn from_source(
    alloc: Global,
    options: &TrialOptions,
    session: &Session,
) -> Result<Vec<Packet>, AllocError>
    requires ranges { HasTrialRanges options.now }
    requires session { session.now ≡ trial_session options.now }
    ensures { IfOk result (λ packets. packets.items ≡ arrived options.now 0) }
{
    let encoder = encoder_of(alloc, options, session)?;
    let mut hop = Hop::new(alloc, options.number, 0, options.loss);
    send_coded_batches(alloc, &mut hop, session, &encoder, options.batches)?;
    Ok(hop.arrived)
}

// Gives a packet to a relay.
fn take<C: Ledger, L: Ledger>(
    mixer: &mut Mixer,
    packet: &Packet,
    counters: &mut Counters<C, L>,
) -> Result<(), AllocError>
    requires shape { HasShape mixer.old.held.session packet.now }
    requires few { row_count mixer.old.held.batches < max_kept }
    ensures session { mixer.new.held.session ≡ mixer.old.held.session }
    ensures seed { mixer.new.seed ≡ mixer.old.seed }
    ensures sent { (batch : ℕ) → sent_of mixer.new batch ≡ sent_of mixer.old batch }
    ensures ok { OnOk result ((packets : List Packet) → StandsFor packets mixer.old.held
        → StandsFor (packets ++ packet.now ∷ []) mixer.new.held) }
    ensures steps { counters.new.steps ≤ counters.old.steps + mixer.old.held.session.m }
{
    match mixer.offer(packet, &mut counters.coef_steps, &mut counters.steps) {
        Ok(_) => Ok(()),
        Err(HeldEnd::Memory) => Err(AllocError),
        Err(HeldEnd::Full) => unreachable!(),
    }
}

// Gives packets to a relay that holds none.
fn take_all<C: Ledger, L: Ledger>(
    mixer: &mut Mixer,
    packets: &[Packet],
    counters: &mut Counters<C, L>,
) -> Result<(), AllocError>
    requires shapes { All (HasShape mixer.old.held.session) packets.now }
    requires few { length packets.now ≤ max_kept }
    requires empty { StandsFor [] mixer.old.held }
    ensures session { mixer.new.held.session ≡ mixer.old.held.session }
    ensures seed { mixer.new.seed ≡ mixer.old.seed }
    ensures sent { (batch : ℕ) → sent_of mixer.new batch ≡ sent_of mixer.old batch }
    ensures ok { OnOk result (StandsFor packets.now mixer.new.held) }
    ensures steps { counters.new.steps ≤ counters.old.steps + length packets.now * mixer.old.held.session.m }
{
    'packets: for packet in packets {
        take(mixer, packet, counters)?;
    }
    Ok(())
}

// What arrives of the packets that a relay sends once it has taken these.
fn from_relay<C: Ledger, L: Ledger>(
    alloc: Global,
    options: &TrialOptions,
    session: &Session,
    relay: u32,
    packets: &[Packet],
    counters: &mut Counters<C, L>,
) -> Result<Vec<Packet>, AllocError>
    requires ranges { HasTrialRanges options.now }
    requires session { session.now ≡ trial_session options.now }
    requires shapes { All (HasShape session.now) packets.now }
    requires few { length packets.now ≤ max_kept }
    ensures arrived { IfOk result (λ sent. sent.items
        ≡ surviving options.now relay 0 (of_batches options.now (relay_batch options.now relay packets.now))) }
    ensures steps { counters.new.steps ≤ counters.old.steps + length packets.now * session.now.m }
{
    let mut mixer = Mixer::new(alloc, *session, relay_seed(options.number, relay));
    take_all(&mut mixer, packets, counters)?;
    let mut hop = Hop::new(alloc, options.number, relay, options.loss);
    send_mixed_batches(&mut hop, &mut mixer, options.m, options.batches)?;
    Ok(hop.arrived)
}

/// What arrives at the sink.
pub(crate) fn cross<C: Ledger, L: Ledger>(
    alloc: Global,
    options: &TrialOptions,
    session: &Session,
    counters: &mut Counters<C, L>,
) -> Result<Vec<Packet>, AllocError>
    requires ranges { HasTrialRanges options.now }
    requires session { session.now ≡ trial_session options.now }
    ensures arrived { IfOk result (λ packets. packets.items ≡ sink_arrivals options.now) }
    ensures steps { OnOk result (counters.new.steps
        ≤ counters.old.steps + arrivals_before options.now options.now.relays * options.now.m) }
{
    let mut packets = from_source(alloc, options, session)?;
    'relays: for relay in 0..options.relays {
        packets = from_relay(alloc, options, session, relay + 1, &packets, counters)?;
    }
    Ok(packets)
}
