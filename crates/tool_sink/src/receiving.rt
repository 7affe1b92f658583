//! Receives the packets of an input.
ghost use Rattle.tool_sink.specs.steps.Reception.{ReceivesAll};

use bats_batch::HeldEnd;
use bats_decode::Decoder;
use bats_format::Reader;
use bats_io::{Sink, Source};
use bats_model::{Packet, Session};
use std::alloc::Global;
use std::sync::ledger::Ledger;
use tool_records::{Counters, Holder, Keeper, keep_all, unopened};
use tool_run::{Finish, Stop};

/// What was received of a packet file: its session, and the decoder that has received the packets.
#[derive(Drop)]
pub struct Intake {
    /// The session of the packets.
    pub session: Session,
    /// The decoder of that session.
    pub decoder: Decoder,
}

/// How an input was received that no stop cuts short.
#[derive(Drop)]
pub enum Reception {
    /// The whole input is a packet file, and its packets were received.
    Whole(Intake),
    /// The input isn't taken whole, and the run ends so.
    Ended(Finish),
}

impl Holder for Intake {
    ghost use Rattle.tool_sink.specs.steps.Receiving.{HasReceived};

    ghost holds = { λ first now session packets. HasReceived session packets now };

    fn hold<C: Ledger, L: Ledger>(
        &mut self,
        packet: &Packet,
        counters: &mut Counters<C, L>,
    ) -> Result<(), HeldEnd> {
        self.decoder
            .offer(packet, &mut counters.coef_steps, &mut counters.steps)
    }
}

/// Receives the packets of the input, to its end, or to the first record that is refused or packet that is one too many.
/// Nothing is written.
pub fn receive_all<S: Source, O: Sink, C: Ledger, L: Ledger>(
    alloc: Global,
    input: &mut S,
    output: &mut O,
    counters: &mut Counters<C, L>,
) -> Result<Reception, Stop>
    ensures { ReceivesAll counters.old.steps counters.new.steps
        (record { input = S.state input.old; output = O.state output.old })
        (record { input = S.state input.new; output = O.state output.new })
        result }
{
    let mut reader = match Reader::open(input) {
        Ok(reader) => reader,
        Err(end) => return Ok(Reception::Ended(unopened(alloc, end)?)),
    };
    let session = *reader.session();
    let mut keeper = Keeper {
        holder: Intake {
            session,
            decoder: Decoder::new(alloc, session),
        },
    };
    match keep_all(alloc, &mut reader, &mut keeper, input, output, counters)? {
        None => Ok(Reception::Whole(keeper.holder)),
        Some(finish) => Ok(Reception::Ended(finish)),
    }
}
