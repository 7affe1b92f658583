//! The basis of one batch.
ghost use Rattle.std.specs.Prelude.{ℕ, ◌≡◌, ◌<◌, ◌+◌, ◌≤◌, [], ◌∷◌, ◌++◌, List, All, length, min, IfOk, OnOk, OnErr, slice_get, Some};

use crate::entry::{Entry, keep};
use crate::judged::{Judged, judge_packet};
use bats_model::{Packet, Taken};
use gf_rows::Steps;
use std::alloc::{AllocError, Global};
use std::marker::Model;
use std::mem;
use std::sync::ledger::Ledger;

/// The kept packets of one batch: those whose coefficient vectors are no combinations of the ones kept before. Each
/// stands as it was offered, beside its reduced form.
#[derive(Drop)]
pub struct Basis {
    alloc: Global,
    m: u8,
    t: u16,
    entries: Vec<Entry>,
    // The offered packet's coefficients and factors, while they are reduced.
    row: Vec<u8>,
    // The sum of kept payloads that the payload of a packet that isn't new is compared with.
    sum: Vec<u8>,
}

impl Model for Basis {
    ghost use Rattle.bats_batch.specs.Basis.{BasisData};

    ghost Value = { BasisData };

    ghost use Rattle.bats_batch.specs.steps.IsBasis.{IsBasis};
    ghost use Rattle.bats_batch.specs.steps.Entries.{offered_packets, pivots_of, rows_of};

    ghost view = { λ b. record { m = b.m; t = b.t; kept = offered_packets b.entries.items } };

    ghost invariant = { λ b. IsBasis b.m b.t (offered_packets b.entries.items)
        (pivots_of b.entries.items) (rows_of b.entries.items) };
}

ghost use Rattle.gf_rows.specs.Spends.{Spends};
ghost use Rattle.bats_model.specs.declared.packet.Packet.{Packet};
ghost use Rattle.bats_batch.specs.Basis.{IsSized, IsTaken, kept_with, StandsForBatch};

impl Basis {
    /// A basis that keeps no packet, for packets of `m` coefficients and `t` payload bytes. It takes no memory.
    pub fn new(alloc: Global, m: u8, t: u16) -> Basis
        ensures value { result ≡ record { m = m; t = t; kept = [] } }
        ensures stands { (batch : ℕ) → StandsForBatch batch [] result }
    {
        Basis {
            alloc,
            m,
            t,
            entries: Vec::new(alloc),
            row: Vec::new(alloc),
            sum: Vec::new(alloc),
        }
    }

    /// What would become of a packet of M coefficients and T payload bytes of the basis's batch. It keeps nothing.
    pub(crate) fn judge<C: Ledger, L: Ledger>(
        &mut self,
        packet: &Packet,
        coef_steps: &mut Steps<C>,
        steps: &mut Steps<L>,
    ) -> Result<Taken, AllocError>
        requires coefs { length packet.now.coefs ≡ self.old.m }
        requires payload { length packet.now.payload ≡ self.old.t }
        requires batch { All (λ other. other.batch ≡ packet.now.batch) self.old.kept }
        ensures taken { IfOk result (IsTaken self.old.kept packet.now) }
        ensures same { self.new ≡ self.old }
        ensures coef_steps { Spends coef_steps.old coef_steps.new (min self.old.m (length self.old.kept)) }
        ensures steps { Spends steps.old steps.new (min self.old.m (length self.old.kept)) }
    {
        let judged = judge_packet(
            &self.entries,
            &mut self.row,
            &mut self.sum,
            packet,
            self.m,
            coef_steps,
            steps,
        )?;
        Ok(match judged {
            Judged::New(_) => Taken::Kept,
            Judged::Dependent => Taken::Dependent,
            Judged::Contradiction => Taken::Contradiction,
        })
    }

    /// Offers a packet of M coefficients and T payload bytes of the basis's batch, which is kept where it is new.
    /// After an `Err` the kept packets are those that were kept before.
    pub fn offer<C: Ledger, L: Ledger>(
        &mut self,
        packet: &Packet,
        coef_steps: &mut Steps<C>,
        steps: &mut Steps<L>,
    ) -> Result<Taken, AllocError>
        requires coefs { length packet.now.coefs ≡ self.old.m }
        requires payload { length packet.now.payload ≡ self.old.t }
        requires batch { All (λ other. other.batch ≡ packet.now.batch) self.old.kept }
        ensures taken { IfOk result (IsTaken self.old.kept packet.now) }
        ensures kept { IfOk result (λ taken. self.new
            ≡ record self.old { kept = kept_with self.old.kept packet.now taken }) }
        ensures err { OnErr result (self.new ≡ self.old) }
        ensures stands { OnOk result ((packets : List Packet) → StandsForBatch packet.now.batch packets self.old
            → StandsForBatch packet.now.batch (packets ++ packet.now ∷ []) self.new) }
        ensures coef_steps { Spends coef_steps.old coef_steps.new (min self.old.m (length self.old.kept + 1)) }
        ensures steps { Spends steps.old steps.new (min self.old.m (length self.old.kept + 1)) }
    {
        let judged = judge_packet(
            &self.entries,
            &mut self.row,
            &mut self.sum,
            packet,
            self.m,
            coef_steps,
            steps,
        )?;
        let pivot = match judged {
            Judged::New(pivot) => pivot,
            Judged::Dependent => return Ok(Taken::Dependent),
            Judged::Contradiction => return Ok(Taken::Contradiction),
        };
        let row = mem::replace(&mut self.row, Vec::new(self.alloc));
        keep(
            self.alloc,
            &mut self.entries,
            packet,
            pivot,
            row,
            coef_steps,
        )?;
        Ok(Taken::Kept)
    }

    /// The number of kept packets.
    pub fn rank(&self) -> u32
        ensures value { result ≡ length self.now.kept }
        ensures within { result ≤ self.now.m }
    {
        let _at_most = self.m;
        self.entries.len() as u32
    }

    /// The kept packet at this place, as it was offered.
    pub fn kept(&self, i: u32) -> &Packet
        requires { i < length self.now.kept }
        ensures value { slice_get self.now.kept i ≡ Some result.now }
        ensures sized { IsSized self.now.m self.now.t result.now }
    {
        &self.entries[i as usize].packet
    }
}
