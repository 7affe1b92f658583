//! A relay without a rate.
ghost use Rattle.std.specs.Prelude.{◌≡◌, ◌<◌, ◌≤◌, [], ℕ, List, length, IfOk, OnErr, MatchOption, IfSome, unwrap_or};
ghost use Rattle.std.specs.Ordering.{nat_cmp};
ghost use Rattle.std.specs.BTreeMap.{get};
ghost use Rattle.bats_model.specs.declared.packet.Packet.{Packet};
ghost use Rattle.bats_model.specs.Agreement.{Agrees, AgreesWithAll};
ghost use Rattle.bats_model.specs.PacketFile.{HasShape};
ghost use Rattle.bats_model.specs.Relay.{relay_output};
ghost use Rattle.gf_rows.specs.Spends.{Spends};
ghost use Rattle.bats_batch.specs.Held.{StandsFor, kept_at};
ghost use Rattle.bats_batch.specs.Offers.{Offers, offer_cost};
ghost use Rattle.bats_relay.specs.Mixer.{sent_of, max_outputs, HasSentOne};

use crate::mixing::mixed_packet;
use bats_batch::{Held, HeldEnd};
use bats_model::{Packet, Session, Taken};
use gf_rows::Steps;
use std::alloc::{AllocError, Global};
use std::collections::BTreeMap;
use std::marker::Model;
use std::sync::ledger::Ledger;

/// Outputs of one batch, at most.
pub const MAX_OUTPUTS: u32 = 1_048_576;

/// A relay without a rate: it keeps the new packets of each batch, and makes sums of those of one batch, the numbers of
/// its outputs going on from 0.
#[derive(Drop)]
pub struct Mixer {
    alloc: Global,
    session: Session,
    seed: [u8; 16],
    held: Held,
    // of each batch that was mixed, how many outputs were made
    counts: BTreeMap<u32, u32>,
}

impl Model for Mixer {
    ghost use Rattle.std.specs.Prelude.{◌≡◌};
    ghost use Rattle.bats_relay.specs.Mixer.{MixerData};

    ghost Value = { MixerData };

    ghost view = { λ r. record { held = r.held; seed = r.seed; counts = r.counts.entries } };

    ghost invariant = { λ r. r.session ≡ r.held.session };
}

// How many outputs were made of a batch.
fn count_in(counts: &BTreeMap<u32, u32>, batch: u32) -> u32
    ensures { result ≡ unwrap_or (get nat_cmp counts.now batch) 0 }
{
    match counts.get(&batch) {
        Some(count) => *count,
        None => 0,
    }
}

impl Mixer {
    /// Holds no batch and has made no output. It takes no memory.
    pub fn new(alloc: Global, session: Session, seed: [u8; 16]) -> Mixer
        ensures value { result
            ≡ record { held = record { session = session; batches = [] }; seed = seed; counts = [] } }
        ensures stands { StandsFor [] result.held }
        ensures sent { (batch : ℕ) → sent_of result batch ≡ 0 }
    {
        Mixer {
            alloc,
            session,
            seed,
            held: Held::new(alloc, session),
            counts: BTreeMap::new(alloc),
        }
    }

    /// Offers a packet of M coefficients and T payload bytes to its batch, as `Held::offer` does. How many outputs were
    /// made of each batch stays as it is. After an `Err` all is as before.
    pub fn offer<C: Ledger, L: Ledger>(
        &mut self,
        packet: &Packet,
        coef_steps: &mut Steps<C>,
        steps: &mut Steps<L>,
    ) -> Result<Taken, HeldEnd>
        requires coefs { length packet.now.coefs ≡ self.old.held.session.m }
        requires payload { length packet.now.payload ≡ self.old.held.session.t }
        ensures offers { Offers self.old.held self.new.held packet.now result }
        ensures seed { self.new.seed ≡ self.old.seed }
        ensures sent { (batch : ℕ) → sent_of self.new batch ≡ sent_of self.old batch }
        ensures err { OnErr result (self.new ≡ self.old) }
        ensures coef_steps { Spends coef_steps.old coef_steps.new (offer_cost self.old.held packet.now) }
        ensures steps { Spends steps.old steps.new (offer_cost self.old.held packet.now) }
    {
        self.held.offer(packet, coef_steps, steps)
    }

    /// The next output of a batch, of M coefficients and T payload bytes, of which fewer than 1,048,576 were made:
    /// output number `sent(batch)`. `None` comes where the batch isn't held. After an `Err` nothing has changed.
    pub fn next_of(&mut self, batch: u32) -> Result<Option<Packet>, AllocError>
        requires { sent_of self.old batch < max_outputs }
        ensures held { IfOk result (λ made. MatchOption made (kept_at self.old.held.batches batch ≡ [])
            (λ _. 0 < length (kept_at self.old.held.batches batch))) }
        ensures output { IfOk result (λ made. IfSome made (λ packet. packet ≡ relay_output self.old.held.session
            self.old.seed batch (sent_of self.old batch) (kept_at self.old.held.batches batch))) }
        ensures shape { IfOk result (λ made. IfSome made (HasShape self.old.held.session)) }
        ensures agrees { IfOk result (λ made. IfSome made (λ packet. (packets : List Packet) (file : List ℕ)
            → StandsFor packets self.old.held
            → AgreesWithAll self.old.held.session (kept_at self.old.held.batches batch) file
            → Agrees self.old.held.session file packet)) }
        ensures sent { IfOk result (λ made. MatchOption made (self.new ≡ self.old)
            (λ _. HasSentOne batch self.old self.new)) }
        ensures err { OnErr result (self.new ≡ self.old) }
    {
        let number = count_in(&self.counts, batch);
        let Some(basis) = self.held.basis_of(batch) else {
            return Ok(None);
        };
        let packet = mixed_packet(self.alloc, &self.session, &self.seed, basis, batch, number)?;
        self.counts.insert(batch, number + 1)?;
        Ok(Some(packet))
    }

    /// How many outputs were made of a batch, which is the number of the next one.
    pub fn sent(&self, batch: u32) -> u32
        ensures { result ≡ sent_of self.now batch }
    {
        count_in(&self.counts, batch)
    }

    /// What is held.
    pub fn held(&self) -> &Held
        ensures { result.now ≡ self.now.held }
    {
        &self.held
    }

    // The number of kept packets of a batch.
    pub(crate) fn rank_of(&self, batch: u32) -> u32
        ensures value { result ≡ length (kept_at self.now.held.batches batch) }
        ensures limit { result ≤ 32 }
    {
        let _at_most = self.session.m();
        match self.held.basis_of(batch) {
            Some(basis) => basis.rank(),
            None => 0,
        }
    }
}
