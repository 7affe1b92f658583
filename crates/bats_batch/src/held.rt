//! The bases of all batches that have a kept packet.
ghost use Rattle.std.specs.Prelude.{◌≡◌, ◌≢◌, ◌<◌, ◌≤◌, ◌+◌, ◌∷◌, ◌++◌, [], List, All, length, IfOk, IfErr, OnOk, OnErr, MatchOption};
ghost use Rattle.bats_model.specs.declared.packet.Packet.{Packet};
ghost use Rattle.bats_model.specs.Kept.{kept_count};
ghost use Rattle.gf_rows.specs.Spends.{Spends};
ghost use Rattle.bats_batch.specs.Held.{StandsFor, HaveRisingNumbers, kept_at, row_count, max_kept, batch_at, basis_with};
ghost use Rattle.bats_batch.specs.Offers.{Offers, offer_cost};
ghost use Rattle.bats_batch.specs.declared.held.HeldEnd.TheVariants.{Memory};
ghost use Rattle.bats_batch.specs.steps.Slots.{gain_of};

use crate::basis::Basis;
use crate::slot::{Slot, offer_to, place_of};
use bats_model::{Packet, Session, Taken};
use gf_rows::Steps;
use std::alloc::{AllocError, Global};
use std::marker::Model;
use std::sync::ledger::Ledger;

/// Kept packets of all batches together, at most.
pub const MAX_KEPT: u32 = 8192;

/// Why a packet isn't taken.
#[derive(Clone, Copy, Debug, PartialEq, Eq)]
pub enum HeldEnd {
    /// Memory ran out.
    Memory,
    /// The packet is new, and 8,192 packets are kept.
    Full,
}

impl From<AllocError> for HeldEnd {
    ghost from_gives = { λ _ e. e ≡ Memory };

    fn from(_: AllocError) -> HeldEnd {
        HeldEnd::Memory
    }
}

/// The bases of a session's batches that have a kept packet, by rising batch number.
#[derive(Drop)]
pub struct Held {
    alloc: Global,
    session: Session,
    slots: Vec<Slot>,
    // kept packets of all batches
    rows: u32,
    // where the batch of the last packet stands or would stand
    last: usize,
}

impl Model for Held {
    ghost use Rattle.bats_batch.specs.Held.{HeldData};

    ghost Value = { HeldData };

    ghost use Rattle.bats_batch.specs.steps.Slots.{batches_in, AreWithin};

    ghost view = { λ h. record { session = h.session; batches = batches_in h.slots.items } };

    ghost invariant = { λ h. AreWithin h.session h.slots.items h.rows };
}

// How many packets more are kept.
fn gain_of(taken: Taken) -> u32
    ensures { result ≡ gain_of taken }
{
    match taken {
        Taken::Kept => 1,
        _ => 0,
    }
}

// The place that a look-up found, whether the batch stands or belongs there.
fn place_in(place: Result<usize, usize>) -> usize {
    match place {
        Ok(place) => place,
        Err(place) => place,
    }
}

impl Held {
    /// Holds no batch. It takes no memory.
    pub fn new(alloc: Global, session: Session) -> Held
        ensures value { result ≡ record { session = session; batches = [] } }
        ensures stands { StandsFor [] result }
    {
        Held {
            alloc,
            session,
            slots: Vec::new(alloc),
            rows: 0,
            last: 0,
        }
    }

    /// Offers a packet of M coefficients and T payload bytes to its batch. `Full` comes where it is new and 8,192
    /// packets are kept. After an `Err` what is held is as before. It is at most M steps on each counter.
    pub fn offer<C: Ledger, L: Ledger>(
        &mut self,
        packet: &Packet,
        coef_steps: &mut Steps<C>,
        steps: &mut Steps<L>,
    ) -> Result<Taken, HeldEnd>
        requires coefs { length packet.now.coefs ≡ self.old.session.m }
        requires payload { length packet.now.payload ≡ self.old.session.t }
        ensures offers { Offers self.old self.new packet.now result }
        ensures coef_steps { Spends coef_steps.old coef_steps.new (offer_cost self.old packet.now) }
        ensures steps { Spends steps.old steps.new (offer_cost self.old packet.now) }
    {
        let _coefs = packet.coefs.as_slice();
        let _payload = packet.payload.as_slice();
        let number = packet.batch;
        let place = place_of(&self.slots, self.last, number);
        self.last = place_in(place);
        let has_room = self.rows < MAX_KEPT;
        let taken = offer_to(
            self.alloc,
            &mut self.slots,
            place,
            &self.session,
            has_room,
            packet,
            coef_steps,
            steps,
        )?;
        self.rows += gain_of(taken);
        Ok(taken)
    }

    /// The number of kept packets, at most 8,192.
    pub fn rows(&self) -> u32
        ensures value { result ≡ row_count self.now.batches }
        ensures limit { result ≤ max_kept }
        ensures kept { (packets : List Packet) → StandsFor packets self.now → result ≡ kept_count packets }
    {
        self.rows
    }

    /// The number of held batches.
    pub fn batches(&self) -> u32
        ensures value { result ≡ length self.now.batches }
        ensures limit { result ≤ max_kept }
        ensures rising { HaveRisingNumbers self.now.batches }
    {
        self.slots.len() as u32
    }

    /// The number of the held batch at place `i`, numbers rising.
    pub fn batch_at(&self, i: u32) -> u32
        requires { i < length self.now.batches }
        ensures { result ≡ (batch_at self.now.batches i).number }
    {
        self.slots[i as usize].number
    }

    /// The basis of the held batch at place `i`, which keeps packets of that batch alone.
    pub fn basis_at(&self, i: u32) -> &Basis
        requires { i < length self.now.batches }
        ensures value { result.now ≡ basis_with self.now.session (batch_at self.now.batches i).kept }
        ensures some { 0 < length result.now.kept }
        ensures own { All (λ packet. packet.batch ≡ (batch_at self.now.batches i).number) result.now.kept }
        ensures at { kept_at self.now.batches (batch_at self.now.batches i).number ≡ result.now.kept }
    {
        &self.slots[i as usize].basis
    }

    /// The basis of a batch, where it is held.
    pub fn basis_of(&self, batch: u32) -> Option<&Basis>
        ensures { MatchOption result (kept_at self.now.batches batch ≡ [])
            (λ basis. (basis.now ≡ basis_with self.now.session (kept_at self.now.batches batch)) × (0 < length basis.now.kept)) }
    {
        match place_of(&self.slots, self.last, batch) {
            Ok(place) => Some(&self.slots[place].basis),
            Err(_) => None,
        }
    }
}
