//! The relays: making them, and what is asked of one of them.
ghost use Rattle.std.specs.Prelude.{ℕ, ◌≡◌, ◌<◌, [], length, IfOk, OnErr, MatchOption, IfSome};
ghost use Rattle.bats_model.specs.declared.packet.Packet.{Packet};
ghost use Rattle.bats_model.specs.PacketFile.{HasShape};
ghost use Rattle.bats_model.specs.Relay.{relay_output};
ghost use Rattle.gf_rows.specs.Spends.{Spends};
ghost use Rattle.bats_batch.specs.Held.{kept_at};
ghost use Rattle.bats_batch.specs.Offers.{Offers, offer_cost};
ghost use Rattle.bats_relay.specs.Mixer.{sent_of, max_outputs, HasSentOne};
ghost use Rattle.bats_world.specs.Standing.{relay_at};
ghost use Rattle.bats_world.specs.steps.Places.{ChangesAt};
ghost use Rattle.bats_world.specs.steps.Relays.{new_relays};

use bats_batch::HeldEnd;
use bats_model::{Packet, Session, Taken};
use bats_relay::Mixer;
use gf_rows::Steps;
use std::alloc::{AllocError, Global};
use std::sync::ledger::Ledger;

/// A relay for each seed, which holds nothing.
pub(crate) fn mixers_of(
    alloc: Global,
    session: Session,
    seeds: &[[u8; 16]],
) -> Result<Vec<Mixer>, AllocError>
    ensures { IfOk result (λ mixers. mixers.items ≡ new_relays session seeds.now) }
{
    let mut mixers = Vec::new(alloc);
    'seeds: for seed in seeds {
        mixers.push(Mixer::new(alloc, session, *seed))?;
    }
    Ok(mixers)
}

/// The next output of a batch of the relay at this place, as `Mixer::next_of` makes it.
pub(crate) fn next_of(
    mixers: &mut [Mixer],
    place: usize,
    batch: u32,
) -> Result<Option<Packet>, AllocError>
    requires within { place < length mixers.old }
    requires few { sent_of (relay_at mixers.old place) batch < max_outputs }
    ensures held { IfOk result (λ made. MatchOption made (kept_at (relay_at mixers.old place).held.batches batch ≡ [])
        (λ _. 0 < length (kept_at (relay_at mixers.old place).held.batches batch))) }
    ensures output { IfOk result (λ made. IfSome made (λ packet. packet ≡ relay_output (relay_at mixers.old place).held.session
        (relay_at mixers.old place).seed batch (sent_of (relay_at mixers.old place) batch)
        (kept_at (relay_at mixers.old place).held.batches batch))) }
    ensures shape { IfOk result (λ made. IfSome made (HasShape (relay_at mixers.old place).held.session)) }
    ensures sent { IfOk result (λ made. MatchOption made (mixers.new ≡ mixers.old)
        (λ _. HasSentOne batch (relay_at mixers.old place) (relay_at mixers.new place))) }
    ensures others { ChangesAt place mixers.old mixers.new }
    ensures err { OnErr result (mixers.new ≡ mixers.old) }
{
    mixers[place].next_of(batch)
}

/// Offers a packet to the relay at this place, as `Mixer::offer` does.
pub(crate) fn offer<C: Ledger, L: Ledger>(
    mixers: &mut [Mixer],
    place: usize,
    packet: &Packet,
    coef_steps: &mut Steps<C>,
    steps: &mut Steps<L>,
) -> Result<Taken, HeldEnd>
    requires within { place < length mixers.old }
    requires coefs { length packet.now.coefs ≡ (relay_at mixers.old place).held.session.m }
    requires payload { length packet.now.payload ≡ (relay_at mixers.old place).held.session.t }
    ensures offers { Offers (relay_at mixers.old place).held (relay_at mixers.new place).held packet.now result }
    ensures seed { (relay_at mixers.new place).seed ≡ (relay_at mixers.old place).seed }
    ensures sent { (batch : ℕ) → sent_of (relay_at mixers.new place) batch ≡ sent_of (relay_at mixers.old place) batch }
    ensures others { ChangesAt place mixers.old mixers.new }
    ensures err { OnErr result (mixers.new ≡ mixers.old) }
    ensures coef_steps { Spends coef_steps.old coef_steps.new (offer_cost (relay_at mixers.old place).held packet.now) }
    ensures steps { Spends steps.old steps.new (offer_cost (relay_at mixers.old place).held packet.now) }
{
    mixers[place].offer(packet, coef_steps, steps)
}
