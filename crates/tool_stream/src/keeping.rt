//! What a relay has taken in of a packet file.
use bats_batch::HeldEnd;
use bats_model::{Packet, Session};
use bats_relay::Mixer;
use std::alloc::Global;
use std::sync::ledger::Ledger;
use tool_records::{Counters, Holder};

/// What a relay has taken in of a packet file: the session, what is kept, and how many packets came.
#[derive(Drop)]
pub struct Intake {
    /// The session of the packets.
    pub session: Session,
    /// The kept packets, of which no output is made yet.
    pub mixer: Mixer,
    /// The number of packets that came, kept or not.
    pub packets: u32,
}

impl Intake {
    ghost use Rattle.std.specs.Prelude.{◌≡◌, []};
    ghost use Rattle.tool_stream.specs.steps.Keeping.{HasTakenIn};

    /// What a relay of this seed has taken in before the first packet.
    pub fn new(alloc: Global, session: Session, seed: [u8; 16]) -> Intake
        ensures seed { result.mixer.seed ≡ seed }
        ensures session { result.session ≡ session }
        ensures nothing { HasTakenIn seed session [] result }
    {
        Intake {
            session,
            mixer: Mixer::new(alloc, session, seed),
            packets: 0,
        }
    }
}

impl Holder for Intake {
    ghost use Rattle.tool_stream.specs.steps.Keeping.{HasTakenIn};

    ghost holds = { λ first now session packets. HasTakenIn first.mixer.seed session packets now };

    fn hold<C: Ledger, L: Ledger>(
        &mut self,
        packet: &Packet,
        counters: &mut Counters<C, L>,
    ) -> Result<(), HeldEnd> {
        self.packets += 1;
        match self
            .mixer
            .offer(packet, &mut counters.coef_steps, &mut counters.steps)
        {
            Ok(_) => {
                let _few = self.mixer.held().rows();
                Ok(())
            }
            Err(end) => Err(end),
        }
    }
}
