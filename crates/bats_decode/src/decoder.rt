//! The decoder: what was received, and its solving.
ghost use Rattle.std.specs.Prelude.{ℕ, ◌≡◌, ◌<◌, ◌≤◌, ◌+◌, ◌*◌, ◌++◌, ◌∷◌, [], List, All, length, IfOk, IfErr, OnOk, OnErr};

use crate::answering::answer;
use crate::elimination::{Origin, eliminate};
use crate::payload_rows::of_kept;
use bats_batch::{Held, HeldEnd};
use bats_model::{Answer, Nums, Packet, Session, Taken};
use bats_peel::peel;
use bats_stripes::{Gate, OpenGate};
use gf_rows::{Plan, Steps};
use std::alloc::{AllocError, Global};
use std::marker::Model;
use std::sync::ledger::Ledger;
use std::thread::Threads;

/// What the received packets say of the file, and how many there are.
#[derive(Drop)]
pub struct Solved {
    /// What they say of the file.
    pub answer: Answer,
    /// The number of received packets, which stays at 2^64 - 1 once it is there.
    pub packets: u64,
    /// The number of received packets that are kept.
    pub kept: u32,
    /// The number of inactive symbols.
    pub inactive: u32,
    /// The operations that were run on the payload rows, which are those of the kept packets: by rising batch number and,
    /// within a batch, in the order kept.
    pub plan: Plan,
    /// Where the answer is a file, the row of each symbol once the plan was run; else empty.
    pub rows: Nums,
}

/// What was received of a session's file.
#[derive(Drop)]
pub struct Decoder {
    alloc: Global,
    session: Session,
    held: Held,
    contradicted: bool,
    packets: u64,
}

impl Model for Decoder {
    ghost use Rattle.std.specs.Prelude.{◌≡◌};
    ghost use Rattle.bats_decode.specs.Decoder.{DecoderData};
    ghost use Rattle.bats_decode.specs.steps.Received.{HasReceived};

    ghost Value = { DecoderData };

    ghost view = { λ d. record { held = d.held; contradicted = d.contradicted; packets = d.packets } };

    ghost invariant = { λ d. (d.held.session ≡ d.session) × HasReceived d.held };
}

ghost use Rattle.bats_model.specs.Session.{symbols_of};
ghost use Rattle.bats_model.specs.Peeling.{IsInactiveList, largest_degree};
ghost use Rattle.bats_model.specs.RightAnswer.{IsRightAnswer};
ghost use Rattle.bats_model.specs.Kept.{kept_count};
ghost use Rattle.bats_model.specs.declared.packet.Packet.{Packet};
ghost use Rattle.bats_batch.specs.Held.{row_count, kept_packets};
ghost use Rattle.bats_batch.specs.Offers.{offer_cost};
ghost use Rattle.gf_rows.specs.Operation.{FitsRows};
ghost use Rattle.gf_rows.specs.Spends.{Spends};
ghost use Rattle.bats_decode.specs.Decoder.{StandsFor, Collects};
ghost use Rattle.bats_decode.specs.SolvingPlan.{PlanFollows};
ghost use Rattle.bats_decode.specs.steps.SymbolRows.{symbol_rows, rows_with};

// The rows of the symbols that have one.
fn rows_of(alloc: Global, origins: &[Origin]) -> Result<Nums, AllocError>
    ensures { IfOk result (λ rows. rows ≡ symbol_rows origins.now) }
{
    let mut rows = Nums::new(alloc);
    'origins: for origin in origins {
        match origin {
            Origin::Row(r) => rows.push(*r)?,
            Origin::Free(_) => {}
        }
    }
    Ok(rows)
}

// The rows of the symbols, where the answer is a file.
fn rows_for(alloc: Global, answer: &Answer, origins: &[Origin]) -> Result<Nums, AllocError>
    ensures { IfOk result (λ rows. rows ≡ rows_with origins.now answer.now) }
{
    match answer {
        Answer::File(_) => rows_of(alloc, origins),
        _ => Ok(Nums::new(alloc)),
    }
}

impl Decoder {
    /// A decoder that has received nothing. It takes no memory.
    pub fn new(alloc: Global, session: Session) -> Decoder
        ensures session { result.held.session ≡ session }
        ensures empty { StandsFor [] result }
    {
        Decoder {
            alloc,
            session,
            held: Held::new(alloc, session),
            contradicted: false,
            packets: 0,
        }
    }

    /// The held batches, which stand for the received packets.
    pub fn held(&self) -> &Held
        ensures { result.now ≡ self.now.held }
    {
        &self.held
    }

    /// Receives a packet of M coefficients and T payload bytes. `Full` comes where it is new and 8,192 packets are kept.
    /// After an `Err` what was received is as before. It is at most M steps on each counter.
    pub fn offer<C: Ledger, L: Ledger>(
        &mut self,
        packet: &Packet,
        coef_steps: &mut Steps<C>,
        steps: &mut Steps<L>,
    ) -> Result<(), HeldEnd>
        requires coefs { length packet.now.coefs ≡ self.old.held.session.m }
        requires payload { length packet.now.payload ≡ self.old.held.session.t }
        ensures collects { Collects self.old self.new packet.now result }
        ensures coef_steps { Spends coef_steps.old coef_steps.new (offer_cost self.old.held packet.now) }
        ensures steps { Spends steps.old steps.new (offer_cost self.old.held packet.now) }
    {
        let taken = self.held.offer(packet, coef_steps, steps)?;
        self.packets = self.packets.saturating_add(1);
        if taken == Taken::Contradiction {
            self.contradicted = true;
        }
        Ok(())
    }

    /// What the received packets say of the file. The number of workers is 1 to 64. Each operation of the plan is a step on
    /// the payload rows. An `Err` is want of memory, and drops what was received.
    pub fn solve<R: Threads + Sync, C: Ledger, L: Ledger>(
        self,
        rt: &R,
        workers: u32,
        coef_steps: &mut Steps<C>,
        steps: &mut Steps<L>,
    ) -> Result<Solved, AllocError>
        requires { (1 ≤ workers) × (workers ≤ 64) }
        ensures right { IfOk result (λ solved. (packets : List Packet) → StandsFor packets self
            → IsRightAnswer self.held.session packets solved.answer) }
        ensures packets { IfOk result (λ solved. solved.packets ≡ self.packets) }
        ensures kept { IfOk result (λ solved. (packets : List Packet) → StandsFor packets self
            → solved.kept ≡ kept_count packets) }
        ensures inactive { IfOk result (λ solved. (packets : List Packet) → StandsFor packets self
            → (list : List ℕ) × (IsInactiveList self.held.session packets list × (solved.inactive ≡ length list))) }
        ensures fits { IfOk result (λ solved. All (FitsRows (row_count self.held.batches)) solved.plan) }
        ensures plan { IfOk result (λ solved. (packets : List Packet) → StandsFor packets self
            → PlanFollows self.held.session (kept_packets self.held.batches) solved.plan solved.rows solved.answer) }
        ensures bound { IfOk result (λ solved. (packets : List Packet) → StandsFor packets self → length solved.plan
            ≤ row_count self.held.batches * (largest_degree self.held.session packets + solved.inactive)) }
        ensures counted { IfOk result (λ solved. steps.new ≡ steps.old + length solved.plan) }
        ensures steps { (packets : List Packet) (list : List ℕ) → StandsFor packets self
            → IsInactiveList self.held.session packets list → steps.new
            ≤ steps.old + row_count self.held.batches * (largest_degree self.held.session packets + length list) }
        ensures coef_steps_rise { coef_steps.old ≤ coef_steps.new }
        ensures steps_rise { steps.old ≤ steps.new }
    {
        self.solve_with(rt, workers, &OpenGate, coef_steps, steps)
    }

    /// As `solve`, for every gate, which each worker passes before it begins its stripe of the payload rows.
    pub fn solve_with<R: Threads + Sync, G: Gate, C: Ledger, L: Ledger>(
        self,
        rt: &R,
        workers: u32,
        gate: &G,
        coef_steps: &mut Steps<C>,
        steps: &mut Steps<L>,
    ) -> Result<Solved, AllocError>
        requires { (1 ≤ workers) × (workers ≤ 64) }
        ensures right { IfOk result (λ solved. (packets : List Packet) → StandsFor packets self
            → IsRightAnswer self.held.session packets solved.answer) }
        ensures packets { IfOk result (λ solved. solved.packets ≡ self.packets) }
        ensures kept { IfOk result (λ solved. (packets : List Packet) → StandsFor packets self
            → solved.kept ≡ kept_count packets) }
        ensures inactive { IfOk result (λ solved. (packets : List Packet) → StandsFor packets self
            → (list : List ℕ) × (IsInactiveList self.held.session packets list × (solved.inactive ≡ length list))) }
        ensures fits { IfOk result (λ solved. All (FitsRows (row_count self.held.batches)) solved.plan) }
        ensures plan { IfOk result (λ solved. (packets : List Packet) → StandsFor packets self
            → PlanFollows self.held.session (kept_packets self.held.batches) solved.plan solved.rows solved.answer) }
        ensures bound { IfOk result (λ solved. (packets : List Packet) → StandsFor packets self → length solved.plan
            ≤ row_count self.held.batches * (largest_degree self.held.session packets + solved.inactive)) }
        ensures counted { IfOk result (λ solved. steps.new ≡ steps.old + length solved.plan) }
        ensures steps { (packets : List Packet) (list : List ℕ) → StandsFor packets self
            → IsInactiveList self.held.session packets list → steps.new
            ≤ steps.old + row_count self.held.batches * (largest_degree self.held.session packets + length list) }
        ensures coef_steps_rise { coef_steps.old ≤ coef_steps.new }
        ensures steps_rise { steps.old ≤ steps.new }
    {
        let session = self.session;
        let alloc = self.alloc;
        let packets = self.packets;
        let kept = self.held.rows();
        if self.contradicted {
            let peeled = peel(alloc, &session, &self.held, coef_steps)?;
            return Ok(Solved {
                answer: Answer::Inconsistent,
                packets,
                kept,
                inactive: peeled.rows.cols(),
                plan: Plan::new(alloc),
                rows: Nums::new(alloc),
            });
        }
        let _within = session.t();
        let e = eliminate(alloc, &session, &self.held, coef_steps)?;
        let mut payload = of_kept(alloc, &session, self.held, workers)?;
        payload.replay(rt, &e.plan, gate, steps);
        let answer = answer(rt, alloc, &session, &e, &payload)?;
        let rows = rows_for(alloc, &answer, &e.origins)?;
        Ok(Solved {
            answer,
            packets,
            kept,
            inactive: e.matrix.cols(),
            plan: e.plan,
            rows,
        })
    }
}
