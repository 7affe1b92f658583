//! The command `relay`.
ghost use Rattle.std.specs.Prelude.{ℕ, ◌≡◌, ◌≤◌, List, string_bytes, IfOk};
ghost use Rattle.bats_model.specs.Session.{SessionData};
ghost use Rattle.bats_model.specs.PacketFile.{packets_of};
ghost use Rattle.bats_model.specs.declared.item.Item.{Item};
ghost use Rattle.bats_relay.specs.Mixer.{sent_of};
ghost use Rattle.tool_run.specs.Attempt.{AttemptsUncounted};
ghost use Rattle.tool_run.specs.declared.status.Status.TheVariants as statuses;
ghost use Rattle.tool_stream.specs.Relay.{relay_line, relay_promise};
ghost use Rattle.tool_stream.specs.steps.Relaying.{SendsAs};
ghost use Rattle.tool_stream.specs.steps.Keeping.{HasTakenIn};

use crate::keeping::Intake;
use crate::sending::send_by_rule;
use bats_format::Reader;
use bats_io::{Sink, Source};
use std::alloc::{AllocError, Global};
use std::sync::ledger::Ledger;
use tool_records::{Counters, Keeper, keep_all, unopened};
use tool_run::{Finish, Status, Stop};

// The notes line of a relay that is done: the packets that came, those kept, the batches held, and the outputs sent.
fn relay_text(
    alloc: Global,
    packets: u32,
    kept: u32,
    batches: u32,
    sent: u32,
) -> Result<String, AllocError>
    ensures { IfOk result (λ line. string_bytes line ≡ relay_line packets kept batches sent) }
{
    format!(in alloc; "relay: packets={packets} kept={kept} batches={batches} sent={sent}\n")
}

// Sends what is kept, and says how the run ends.
fn send_all<O: Sink>(
    alloc: Global,
    extra: bool,
    count: u32,
    mut intake: Intake,
    output: &mut O,
) -> Result<Finish, Stop>
    requires count { count ≤ 64 }
    requires session { intake.mixer.held.session ≡ intake.session }
    requires unsent { (batch : ℕ) → sent_of intake.mixer batch ≡ 0 }
    ensures { (seed : List ℕ) (session : SessionData) (list : List Item) → HasTakenIn seed session (packets_of list) intake
        → SendsAs seed extra count session list (O.state output.old) (O.state output.new) result }
{
    let sent = send_by_rule(output, &mut intake, extra, count)?;
    let held = intake.mixer.held();
    let line = relay_text(alloc, intake.packets, held.rows(), held.batches(), sent)?;
    Ok(Finish {
        status: Status::Done,
        line,
    })
}

/// Does `relay`: keeps the new packets of the input, and then writes the header and, of each held batch, numbers rising,
/// as many sums of its kept packets as the rule says: `count`, at most 64, or with `extra` its rank and `count` more.
pub fn relay<S: Source, O: Sink, C: Ledger, L: Ledger>(
    alloc: Global,
    seed: [u8; 16],
    extra: bool,
    count: u32,
    input: &mut S,
    output: &mut O,
    counters: &mut Counters<C, L>,
) -> Result<Finish, Stop>
    requires { count ≤ 64 }
    ensures { AttemptsUncounted (relay_promise seed extra count)
        (record { input = S.state input.old; output = O.state output.old })
        (record { input = S.state input.new; output = O.state output.new })
        result }
{
    let mut reader = match Reader::open(input) {
        Ok(reader) => reader,
        Err(end) => return unopened(alloc, end),
    };
    let mut keeper = Keeper {
        holder: Intake::new(alloc, *reader.session(), seed),
    };
    match keep_all(alloc, &mut reader, &mut keeper, input, output, counters)? {
        None => send_all(alloc, extra, count, keeper.holder, output),
        Some(finish) => Ok(finish),
    }
}
