//! Keeps the packets of a packet file, for each command that holds what it reads.
ghost use Rattle.std.specs.Prelude.{◌≤◌, ◌+◌, ◌∷◌, ◌++◌, List, []};
ghost use Rattle.bats_io.specs.Streams.{InputState};
ghost use Rattle.bats_format.specs.Reader.{OpensAt};
ghost use Rattle.bats_model.specs.Session.{SessionData};
ghost use Rattle.bats_model.specs.declared.packet.Packet.{Packet};
ghost use Rattle.tool_records.specs.steps.Kept.{CanHold, HoldsAs, Keeps, KeepsAll};

use crate::counters::Counters;
use crate::refusals::input_refusal;
use crate::walking::{Next, Taker, WalkEnd, walk_opened};
use bats_batch::HeldEnd;
use bats_format::Reader;
use bats_io::{Sink, Source};
use bats_model::{Item, Packet, Session};
use std::alloc::Global;
use std::sync::ledger::Ledger;
use tool_run::{Finish, Status, Stop, refusal};

/// What holds the packets of a session, of which at most 8,192 are kept.
pub trait Holder {
    /// The holder, which began as the first, holds these packets of the session.
    ghost holds: { Self → Self → SessionData → List Packet → Type 0 };

    /// Holds a packet more. `Full` comes where it would be kept when no more may be.
    fn hold<C: Ledger, L: Ledger>(
        &mut self,
        packet: &Packet,
        counters: &mut Counters<C, L>,
    ) -> Result<(), HeldEnd>
        requires { (first : Self) × (session : SessionData) × (packets : List Packet)
            × CanHold (holds first self.old) session packets packet.now }
        ensures held { (first : Self) (session : SessionData) (packets : List Packet)
            → CanHold (holds first self.old) session packets packet.now
            → HoldsAs (holds first self.new) session (packets ++ packet.now ∷ []) result }
        ensures steps { (first : Self) (session : SessionData) (packets : List Packet)
            → CanHold (holds first self.old) session packets packet.now
            → counters.new.steps ≤ counters.old.steps + session.m };
}

/// Gives the packets of a packet file to a holder: at one that would be kept when no more may be it halts.
#[derive(Drop)]
pub struct Keeper<H> {
    /// What holds the packets.
    pub holder: H,
}

impl<H: Holder, C: Ledger, L: Ledger> Taker<Counters<C, L>> for Keeper<H> {
    ghost gives = { λ first given now counters session list start output result.
        Keeps (H.holds first.holder now.holder) given.steps counters.steps session list start output result };

    fn take<O: Sink>(
        &mut self,
        _alloc: Global,
        _session: &Session,
        item: Item,
        _output: &mut O,
        counters: &mut Counters<C, L>,
    ) -> Result<Next, Stop> {
        match item {
            Item::Header { .. } => Ok(Next::GoesOn),
            Item::Packet { packet, .. } => match self.holder.hold(&packet, counters) {
                Ok(()) => Ok(Next::GoesOn),
                Err(HeldEnd::Full) => Ok(Next::Halts),
                Err(HeldEnd::Memory) => Err(Stop::Memory),
            },
        }
    }
}

/// Gives the packets of an input whose first header this reader has just read to a keeper, to the input's end, or to the
/// first record that is refused or packet that is one too many. The answer is `None` where the whole input was kept, and
/// else how the run ends. Nothing is written.
pub fn keep_all<S: Source, O: Sink, H: Holder, C: Ledger, L: Ledger>(
    alloc: Global,
    reader: &mut Reader,
    keeper: &mut Keeper<H>,
    input: &mut S,
    output: &mut O,
    counters: &mut Counters<C, L>,
) -> Result<Option<Finish>, Stop>
    requires opened { (start : InputState) × OpensAt start (S.state input.old) reader.old }
    requires begins { H.holds keeper.old.holder keeper.old.holder reader.old.session [] }
    ensures { (start : InputState) → OpensAt start (S.state input.old) reader.old
        → KeepsAll (H.holds keeper.old.holder keeper.new.holder) counters.old.steps counters.new.steps
        (record { input = start; output = O.state output.old })
        (record { input = S.state input.new; output = O.state output.new })
        result }
{
    match walk_opened(alloc, reader, input, keeper, output, counters)? {
        WalkEnd::Whole => Ok(None),
        WalkEnd::Refused(end) => Ok(Some(input_refusal(alloc, end)?)),
        WalkEnd::Halted => Ok(Some(refusal(alloc, Status::Limit, "bats: limit kept\n")?)),
    }
}
