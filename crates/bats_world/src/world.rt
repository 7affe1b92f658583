//! A network of honest nodes in memory.
ghost use Rattle.std.specs.Prelude.{ℕ, ◌≡◌, ◌≢◌, ◌<◌, ◌≤◌, ◌+◌, ◌-◌, ◌*◌, ◌∷◌, ◌++◌, [], List, All, length, if◌then◌else◌, Ok, Err, IfOk, IfErr, OnOk, OnErr, IsErrOf};
ghost use Rattle.std.specs.Vec.{vec_len, vec_capacity};
ghost use Rattle.bats_model.specs.PacketFile.{HasShape};
ghost use Rattle.bats_model.specs.Kept.{kept_of, kept_count};
ghost use Rattle.bats_model.specs.Peeling.{IsInactiveList, largest_degree};
ghost use Rattle.bats_model.specs.RightAnswer.{IsRightAnswer};
ghost use Rattle.bats_batch.specs.Held.{kept_at, kept_packets, row_count};
ghost use Rattle.gf_rows.specs.Operation.{FitsRows};
ghost use Rattle.bats_decode.specs.SolvingPlan.{PlanFollows};
ghost use Rattle.bats_world.specs.World.{NetworkState, IsLink, max_relays, max_pool, opening, sink_of, after_event, with_made, with_given, source_packet, next_output, is_full, received_by, made_at, IsReached};
ghost use Rattle.bats_world.specs.Standing.{StandsFor, IsHonestAnswer, relay_at};
ghost use Rattle.bats_world.specs.steps.Ends.{end_of};
ghost use Rattle.bats_world.specs.declared.event.Event.{Event};
ghost use Rattle.bats_world.specs.declared.event.Event.TheVariants.{Send, Mix, Give};

use crate::link_table::{is_linked, link_table};
use crate::lists::{Links, Seeds};
use crate::relays::{mixers_of, next_of, offer};
use crate::{Event, Made, WorldEnd};
use bats_batch::HeldEnd;
use bats_decode::{Decoder, Solved};
use bats_encoder::Encoder;
use bats_model::{Bytes, Packet, Session};
use bats_relay::Mixer;
use bats_sampler::batch;
use gf_rows::Steps;
use std::alloc::{AllocError, Global};
use std::marker::Model;
use std::sync::ledger::Ledger;
use std::thread::Threads;

/// Packets of the pool, at most.
pub const MAX_POOL: usize = 65_536;

/// Why there is no world.
#[derive(Clone, Copy, Debug, PartialEq, Eq)]
pub enum WorldStart {
    /// Memory ran out.
    Memory,
    /// The file's length isn't the one that the session declares. Both count bytes.
    OtherLength { found: u64, declared: u64 },
}

impl From<AllocError> for WorldStart {
    ghost use Rattle.bats_world.specs.declared.world.WorldStart.TheVariants.{Memory};

    ghost from_gives = { λ _ e. e ≡ Memory };

    fn from(_: AllocError) -> WorldStart {
        WorldStart::Memory
    }
}

impl From<AllocError> for WorldEnd {
    ghost use Rattle.bats_world.specs.declared.event.WorldEnd.TheVariants.{Memory};

    ghost from_gives = { λ _ e. e ≡ Memory };

    fn from(_: AllocError) -> WorldEnd {
        WorldEnd::Memory
    }
}

impl From<HeldEnd> for WorldEnd {
    ghost from_gives = { λ held e. e ≡ end_of held };

    fn from(end: HeldEnd) -> WorldEnd {
        match end {
            HeldEnd::Memory => WorldEnd::Memory,
            HeldEnd::Full => WorldEnd::Full,
        }
    }
}

// Puts a packet into the pool. It fails only where the pool has no room left.
fn add(pool: &mut Vec<Made>, made: Made) -> Result<(), AllocError>
    ensures ok { OnOk result (pool.new.items ≡ pool.old.items ++ made ∷ []) }
    ensures err { OnErr result (pool.new.items ≡ pool.old.items) }
    ensures full { OnErr result (vec_capacity pool.old ≤ vec_len pool.old) }
{
    pool.push(made)?;
    Ok(())
}

/// A source with its file, relays, a sink, the links between them, and the pool of the packets that were made.
#[derive(Drop)]
pub struct World {
    alloc: Global,
    session: Session,
    encoder: Encoder,
    mixers: Vec<Mixer>,
    linked: Vec<bool>,
    pool: Vec<Made>,
    sink: Decoder,
}

impl Model for World {
    ghost use Rattle.std.specs.Prelude.{◌≡◌};
    ghost use Rattle.bats_world.specs.Standing.{WorldData};
    ghost use Rattle.bats_world.specs.steps.Inside.{IsWorld};

    ghost Value = { WorldData };

    ghost view = { λ w. record {
      session = w.session;
      file = w.encoder.file;
      relays = w.mixers.items;
      linked = w.linked.items;
      pool = w.pool.items;
      sink = w.sink;
    } };

    ghost invariant = { λ w. (w.encoder.session ≡ w.session) × IsWorld (record {
      session = w.session;
      file = w.encoder.file;
      relays = w.mixers.items;
      linked = w.linked.items;
      pool = w.pool.items;
      sink = w.sink;
    }) };
}

impl World {
    /// The network before any event, with a relay for each of at most 16 seeds. A link leads from the source or a relay to
    /// a relay or the sink.
    pub fn new(
        alloc: Global,
        session: Session,
        file: Bytes,
        relay_seeds: Seeds,
        links: Links,
    ) -> Result<World, WorldStart>
        requires relays { length relay_seeds ≤ max_relays }
        requires links { All (IsLink (length relay_seeds)) links }
        ensures stands { IfOk result (StandsFor (opening session file relay_seeds links)) }
        ensures accepted { length file ≡ session.file_length → IfErr result (λ e. e ≡ WorldStart.Memory) }
        ensures other_length { length file ≢ session.file_length
            → IsErrOf result (WorldStart.OtherLength (length file) session.file_length) }
    {
        let _bytes = file.as_slice();
        let encoder = match Encoder::new(alloc, session, file) {
            Ok(encoder) => encoder,
            Err(e) => {
                return Err(WorldStart::OtherLength {
                    found: e.found,
                    declared: e.declared,
                });
            }
        };
        let mixers = mixers_of(alloc, session, relay_seeds.as_slice())?;
        let linked = link_table(alloc, links.as_slice())?;
        Ok(World {
            alloc,
            session,
            encoder,
            mixers,
            linked,
            pool: Vec::new(alloc),
            sink: Decoder::new(alloc, session),
        })
    }

    /// Does one event, or tells the first cause why it doesn't take place. After an `Err` nothing has changed.
    pub fn step<C: Ledger, L: Ledger>(
        &mut self,
        event: Event,
        coef_steps: &mut Steps<C>,
        steps: &mut Steps<L>,
    ) -> Result<(), WorldEnd>
        ensures ok { OnOk result ((state : NetworkState) → StandsFor state self.old
            → (next : NetworkState) × ((after_event state event ≡ Ok next) × StandsFor next self.new)) }
        ensures cause { IfErr result (λ e. e ≢ WorldEnd.Memory → (state : NetworkState) → StandsFor state self.old
            → after_event state event ≡ Err e) }
        ensures err { OnErr result (self.new ≡ self.old) }
        ensures coef_steps { coef_steps.new ≤ coef_steps.old + self.old.session.m }
        ensures steps { steps.new ≤ steps.old + self.old.session.m }
        ensures coef_steps_rise { coef_steps.old ≤ coef_steps.new }
        ensures steps_rise { steps.old ≤ steps.new }
    {
        match event {
            Event::Send { batch, column } => self.send(batch, column),
            Event::Mix { node, batch } => self.mix(node, batch),
            Event::Give { packet, node } => self.give(packet, node, coef_steps, steps),
        }
    }

    /// The number of packets in the pool, at most 65,536.
    pub fn pool_len(&self) -> u32
        ensures value { result ≡ length self.now.pool }
        ensures limit { result ≤ max_pool }
    {
        self.pool.len() as u32
    }

    /// The packet at a place of the pool, of M coefficients and T payload bytes.
    pub fn pool_at(&self, i: u32) -> &Packet
        requires { i < length self.now.pool }
        ensures value { result.now ≡ (made_at self.now.pool i).packet }
        ensures shape { HasShape self.now.session result.now }
    {
        &self.pool[i as usize].packet
    }

    /// What the packets that the sink was given say of the file. The number of workers is 1 to 64. An `Err` is want of
    /// memory, and drops the world.
    pub fn finish<R: Threads + Sync, C: Ledger, L: Ledger>(
        self,
        rt: &R,
        workers: u32,
        coef_steps: &mut Steps<C>,
        steps: &mut Steps<L>,
    ) -> Result<Solved, AllocError>
        requires { (1 ≤ workers) × (workers ≤ 64) }
        ensures right { IfOk result (λ solved. (state : NetworkState) → StandsFor state self
            → IsRightAnswer state.session (received_by (sink_of state) state.given) solved.answer) }
        ensures honest { IfOk result (λ solved. (state : NetworkState) → StandsFor state self → IsReached state
            → IsHonestAnswer state.file solved.answer) }
        ensures packets { IfOk result (λ solved. solved.packets ≡ self.sink.packets) }
        ensures kept { IfOk result (λ solved. (state : NetworkState) → StandsFor state self
            → solved.kept ≡ kept_count (received_by (sink_of state) state.given)) }
        ensures inactive { IfOk result (λ solved. (state : NetworkState) → StandsFor state self → (list : List ℕ)
            × (IsInactiveList state.session (received_by (sink_of state) state.given) list × (solved.inactive ≡ length list))) }
        ensures fits { IfOk result (λ solved. All (FitsRows (row_count self.sink.held.batches)) solved.plan) }
        ensures plan { IfOk result (λ solved. (state : NetworkState) → StandsFor state self → PlanFollows state.session
            (kept_packets self.sink.held.batches) solved.plan solved.rows solved.answer) }
        ensures counted { IfOk result (λ solved. steps.new ≡ steps.old + length solved.plan) }
        ensures bound { IfOk result (λ solved. (state : NetworkState) → StandsFor state self → length solved.plan
            ≤ row_count self.sink.held.batches
            * (largest_degree state.session (received_by (sink_of state) state.given) + solved.inactive)) }
        ensures steps { (state : NetworkState) (list : List ℕ) → StandsFor state self
            → IsInactiveList state.session (received_by (sink_of state) state.given) list → steps.new ≤ steps.old
            + row_count self.sink.held.batches
            * (largest_degree state.session (received_by (sink_of state) state.given) + length list) }
        ensures coef_steps_rise { coef_steps.old ≤ coef_steps.new }
        ensures steps_rise { steps.old ≤ steps.new }
    {
        self.sink.solve(rt, workers, coef_steps, steps)
    }

    // Whether the source can make its packet of a column.
    fn judge_send(&self, column: u32) -> Result<(), WorldEnd>
        ensures column { OnOk result (column < self.now.session.m) }
        ensures room { OnOk result (length self.now.pool < max_pool) }
        ensures passes { OnOk result ((state : NetworkState) (batch : ℕ) → StandsFor state self.now
            → after_event state (Send batch column)
            ≡ Ok (with_made state 0 (source_packet state.session state.file batch column))) }
        ensures refuses { IfErr result (λ e. (state : NetworkState) (batch : ℕ) → StandsFor state self.now
            → after_event state (Send batch column) ≡ Err e) }
    {
        if column >= u32::from(self.session.m()) {
            return Err(WorldEnd::ColumnTooLarge);
        }
        if self.pool.len() >= MAX_POOL {
            return Err(WorldEnd::PoolFull);
        }
        Ok(())
    }

    // Whether a relay can make an output of the batch.
    fn judge_mix(&self, node: u32, batch: u32) -> Result<(), WorldEnd>
        ensures relay { OnOk result (1 ≤ node) }
        ensures within { OnOk result (node ≤ length self.now.relays) }
        ensures held { OnOk result (0 < length (kept_at (relay_at self.now.relays (node - 1)).held.batches batch)) }
        ensures room { OnOk result (length self.now.pool < max_pool) }
        ensures passes { OnOk result ((state : NetworkState) → StandsFor state self.now
            → after_event state (Mix node batch) ≡ Ok (with_made state node (next_output state node batch))) }
        ensures refuses { IfErr result (λ e. (state : NetworkState) → StandsFor state self.now
            → after_event state (Mix node batch) ≡ Err e) }
    {
        let relays = self.mixers.len();
        if node as usize > relays + 1 {
            return Err(WorldEnd::NoNode);
        }
        if node == 0 || node as usize > relays {
            return Err(WorldEnd::NotARelay);
        }
        if self.mixers[node as usize - 1]
            .held()
            .basis_of(batch)
            .is_none()
        {
            return Err(WorldEnd::NothingHeld);
        }
        if self.pool.len() >= MAX_POOL {
            return Err(WorldEnd::PoolFull);
        }
        Ok(())
    }

    // Whether a packet can come to a node.
    fn judge_give(&self, place: u32, node: u32) -> Result<(), WorldEnd>
        ensures place { OnOk result (place < length self.now.pool) }
        ensures node { OnOk result (1 ≤ node) }
        ensures within { OnOk result (node ≤ length self.now.relays + 1) }
        ensures passes { OnOk result ((state : NetworkState) → StandsFor state self.now
            → after_event state (Give place node) ≡ (if is_full state node (made_at state.pool place).packet then Err WorldEnd.Full
            else Ok (with_given state node (made_at state.pool place).packet))) }
        ensures refuses { IfErr result (λ e. (state : NetworkState) → StandsFor state self.now
            → after_event state (Give place node) ≡ Err e) }
    {
        if place as usize >= self.pool.len() {
            return Err(WorldEnd::NoPacket);
        }
        if node as usize > self.mixers.len() + 1 {
            return Err(WorldEnd::NoNode);
        }
        if !is_linked(&self.linked, self.pool[place as usize].maker, node) {
            return Err(WorldEnd::NoLink);
        }
        Ok(())
    }

    // The source makes its packet of a column.
    fn send(&mut self, number: u32, column: u32) -> Result<(), WorldEnd>
        ensures ok { OnOk result ((state : NetworkState) → StandsFor state self.old
            → (next : NetworkState) × ((after_event state (Send number column) ≡ Ok next) × StandsFor next self.new)) }
        ensures cause { IfErr result (λ e. e ≢ WorldEnd.Memory → (state : NetworkState) → StandsFor state self.old
            → after_event state (Send number column) ≡ Err e) }
        ensures err { OnErr result (self.new ≡ self.old) }
    {
        self.judge_send(column)?;
        let batch = batch(self.alloc, &self.session, number)?;
        let packet = self.encoder.coded(&batch, column)?;
        add(&mut self.pool, Made { maker: 0, packet })?;
        Ok(())
    }

    // A relay makes its next output of a batch.
    fn mix(&mut self, node: u32, batch: u32) -> Result<(), WorldEnd>
        ensures ok { OnOk result ((state : NetworkState) → StandsFor state self.old
            → (next : NetworkState) × ((after_event state (Mix node batch) ≡ Ok next) × StandsFor next self.new)) }
        ensures cause { IfErr result (λ e. e ≢ WorldEnd.Memory → (state : NetworkState) → StandsFor state self.old
            → after_event state (Mix node batch) ≡ Err e) }
        ensures err { OnErr result (self.new ≡ self.old) }
    {
        self.judge_mix(node, batch)?;
        self.pool.reserve(1)?;
        let Some(packet) = next_of(&mut self.mixers, node as usize - 1, batch)? else {
            return Err(WorldEnd::NothingHeld);
        };
        let made = Made {
            maker: node,
            packet,
        };
        add(&mut self.pool, made)?;
        Ok(())
    }

    // A node is given a packet of the pool.
    fn give<C: Ledger, L: Ledger>(
        &mut self,
        place: u32,
        node: u32,
        coef_steps: &mut Steps<C>,
        steps: &mut Steps<L>,
    ) -> Result<(), WorldEnd>
        ensures ok { OnOk result ((state : NetworkState) → StandsFor state self.old
            → (next : NetworkState) × ((after_event state (Give place node) ≡ Ok next) × StandsFor next self.new)) }
        ensures cause { IfErr result (λ e. e ≢ WorldEnd.Memory → (state : NetworkState) → StandsFor state self.old
            → after_event state (Give place node) ≡ Err e) }
        ensures err { OnErr result (self.new ≡ self.old) }
        ensures coef_steps { coef_steps.new ≤ coef_steps.old + self.old.session.m }
        ensures steps { steps.new ≤ steps.old + self.old.session.m }
        ensures coef_steps_rise { coef_steps.old ≤ coef_steps.new }
        ensures steps_rise { steps.old ≤ steps.new }
    {
        self.judge_give(place, node)?;
        let packet = &self.pool[place as usize].packet;
        if node as usize > self.mixers.len() {
            self.sink.offer(packet, coef_steps, steps)?;
            return Ok(());
        }
        offer(
            &mut self.mixers,
            node as usize - 1,
            packet,
            coef_steps,
            steps,
        )?;
        Ok(())
    }
}
