//! A relay: a mixer and a rule.
ghost use Rattle.std.specs.Prelude.{◌≡◌, ◌<◌, ◌≤◌, [], ℕ, List, length, IfOk, OnErr, MatchOption, IfSome};
ghost use Rattle.bats_model.specs.declared.packet.Packet.{Packet};
ghost use Rattle.bats_model.specs.Agreement.{Agrees, AgreesWithAll};
ghost use Rattle.bats_model.specs.PacketFile.{HasShape};
ghost use Rattle.bats_model.specs.Relay.{relay_output};
ghost use Rattle.gf_rows.specs.Spends.{Spends};
ghost use Rattle.bats_batch.specs.Held.{StandsFor, kept_at};
ghost use Rattle.bats_batch.specs.Offers.{Offers, offer_cost};
ghost use Rattle.bats_relay.specs.Mixer.{sent_of, max_outputs, HasSentOne};
ghost use Rattle.bats_relay.specs.Rule.{IsRule};

use crate::mixer::Mixer;
use crate::rule::Rule;
use bats_batch::{Held, HeldEnd};
use bats_model::{Packet, Session, Taken};
use gf_rows::Steps;
use std::alloc::{AllocError, Global};
use std::marker::Model;
use std::sync::ledger::Ledger;

/// A relay, which makes so many outputs of each batch as its rule says.
#[derive(Drop)]
pub struct Relay<F: Fn(u32) -> u32> {
    mixer: Mixer,
    rule: Rule<F>,
}

impl<F: Fn(u32) -> u32> Model for Relay<F> {
    ghost use Rattle.bats_relay.specs.Relay.{RelayData};

    ghost Value = { RelayData F };

    ghost view = { λ r. record { mixer = r.mixer; rule = r.rule } };
}

impl<F: Fn(u32) -> u32> Relay<F> {
    /// Holds no batch and has made no output. It takes no memory.
    pub fn new(alloc: Global, session: Session, seed: [u8; 16], rule: Rule<F>) -> Relay<F>
        ensures rule { result.rule ≡ rule }
        ensures held { result.mixer.held ≡ record { session = session; batches = [] } }
        ensures seed { result.mixer.seed ≡ seed }
        ensures stands { StandsFor [] result.mixer.held }
        ensures sent { (batch : ℕ) → sent_of result.mixer batch ≡ 0 }
    {
        Relay {
            mixer: Mixer::new(alloc, session, seed),
            rule,
        }
    }

    /// Offers a packet of M coefficients and T payload bytes to its batch, as `Held::offer` does. How many outputs were
    /// made of each batch stays as it is. After an `Err` all is as before.
    pub fn offer<C: Ledger, L: Ledger>(
        &mut self,
        packet: &Packet,
        coef_steps: &mut Steps<C>,
        steps: &mut Steps<L>,
    ) -> Result<Taken, HeldEnd>
        requires coefs { length packet.now.coefs ≡ self.old.mixer.held.session.m }
        requires payload { length packet.now.payload ≡ self.old.mixer.held.session.t }
        ensures rule { self.new.rule ≡ self.old.rule }
        ensures offers { Offers self.old.mixer.held self.new.mixer.held packet.now result }
        ensures seed { self.new.mixer.seed ≡ self.old.mixer.seed }
        ensures sent { (batch : ℕ) → sent_of self.new.mixer batch ≡ sent_of self.old.mixer batch }
        ensures err { OnErr result (self.new ≡ self.old) }
        ensures coef_steps { Spends coef_steps.old coef_steps.new (offer_cost self.old.mixer.held packet.now) }
        ensures steps { Spends steps.old steps.new (offer_cost self.old.mixer.held packet.now) }
    {
        self.mixer.offer(packet, coef_steps, steps)
    }

    /// The next output of a batch, as `Mixer::next_of` makes it. `None` comes where the batch isn't held. After an `Err`
    /// nothing has changed.
    pub fn next_of(&mut self, batch: u32) -> Result<Option<Packet>, AllocError>
        requires { sent_of self.old.mixer batch < max_outputs }
        ensures rule { self.new.rule ≡ self.old.rule }
        ensures held { IfOk result (λ made. MatchOption made (kept_at self.old.mixer.held.batches batch ≡ [])
            (λ _. 0 < length (kept_at self.old.mixer.held.batches batch))) }
        ensures output { IfOk result (λ made. IfSome made (λ packet. packet ≡ relay_output self.old.mixer.held.session
            self.old.mixer.seed batch (sent_of self.old.mixer batch) (kept_at self.old.mixer.held.batches batch))) }
        ensures shape { IfOk result (λ made. IfSome made (HasShape self.old.mixer.held.session)) }
        ensures agrees { IfOk result (λ made. IfSome made (λ packet. (packets : List Packet) (file : List ℕ)
            → StandsFor packets self.old.mixer.held
            → AgreesWithAll self.old.mixer.held.session (kept_at self.old.mixer.held.batches batch) file
            → Agrees self.old.mixer.held.session file packet)) }
        ensures sent { IfOk result (λ made. MatchOption made (self.new ≡ self.old)
            (λ _. HasSentOne batch self.old.mixer self.new.mixer)) }
        ensures err { OnErr result (self.new ≡ self.old) }
    {
        self.mixer.next_of(batch)
    }

    /// How many outputs the rule says of a batch: its answer at the batch's rank, and so 0 where the batch isn't held.
    pub fn outputs_of(&self, batch: u32) -> u32
        requires { IsRule F.pre F.post self.now.rule }
        ensures value { F.post self.now.rule.closure (length (kept_at self.now.mixer.held.batches batch)) result }
        ensures limit { result ≤ self.now.rule.cap }
        ensures none { kept_at self.now.mixer.held.batches batch ≡ [] → result ≡ 0 }
    {
        self.rule.count(self.mixer.rank_of(batch))
    }

    /// What is held.
    pub fn held(&self) -> &Held
        ensures { result.now ≡ self.now.mixer.held }
    {
        self.mixer.held()
    }

    /// How many outputs were made of a batch, which is the number of the next one.
    pub fn sent(&self, batch: u32) -> u32
        ensures { result ≡ sent_of self.now.mixer batch }
    {
        self.mixer.sent(batch)
    }
}
