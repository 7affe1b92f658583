//! The command `show`.
ghost use Rattle.std.specs.Prelude.{◌≡◌, ◌+◌, ◌-◌, ◌<◌, ◌^◌, [], ◌∷◌, ◌++◌, length, if◌then◌else◌, string_bytes, IfOk};
ghost use Rattle.std.specs.Result.{result_err};
ghost use Rattle.bats_model.specs.PacketFile.{packets_of};
ghost use Rattle.tool_run.specs.declared.status.Status.TheVariants as statuses;
ghost use Rattle.tool_run.specs.Attempt.{AttemptsUncounted};
ghost use Rattle.tool_run.specs.Writes.{Writes};
ghost use Rattle.tool_stream.specs.Show.{header_line, packet_line, item_line, show_line, show_promise};
ghost use Rattle.tool_stream.specs.steps.Shown.{HasShown, sizes_part, header_rest};

use bats_io::{Sink, Source};
use bats_model::{Item, Packet, Session};
use std::alloc::{AllocError, Global};
use tool_records::{Next, Taker, WalkEnd, input_refusal, walk};
use tool_run::{Finish, Status, Stop, write_bytes};

// The items that were shown: how many headers and how many packets.
#[derive(Debug, Drop)]
struct Shown {
    headers: u32,
    packets: u32,
}

impl Shown {
    // Counts an item.
    fn add(&mut self, item: &Item)
        requires { self.old.headers + self.old.packets < 2 ^ 32 - 1 }
        ensures packets { self.new.packets ≡ self.old.packets + length (packets_of (item.now ∷ [])) }
        ensures all { self.new.headers + self.new.packets ≡ self.old.headers + self.old.packets + 1 }
    {
        match item {
            Item::Header { .. } => self.headers += 1,
            Item::Packet { .. } => self.packets += 1,
        }
    }
}

// 1 for a systematic session, else 0.
fn systematic_digit(session: &Session) -> u8
    ensures { result ≡ (if session.now.systematic then 1 else 0) }
{
    if session.systematic() { 1 } else { 0 }
}

// The front of a header's line: its offset and the sizes of its session.
fn sizes_text(
    alloc: Global,
    at: u64,
    m: u8,
    t: u16,
    length: u64,
    symbols: u32,
) -> Result<String, AllocError>
    ensures { IfOk result (λ text. string_bytes text ≡ sizes_part at m t length symbols) }
{
    format!(in alloc; "header at={at} m={m} t={t} length={length} symbols={symbols}")
}

// A header's line, from its front.
fn header_rest_text(
    alloc: Global,
    sizes: &str,
    systematic: u8,
    table: u8,
    seed: &str,
) -> Result<String, AllocError>
    ensures { IfOk result (λ line. string_bytes line ≡ sizes.now ++ header_rest systematic table seed.now) }
{
    format!(in alloc; "{sizes} systematic={systematic} table={table} seed={seed}\n")
}

// The line of a header record at this offset.
fn header_text(alloc: Global, session: &Session, at: u64) -> Result<String, AllocError>
    ensures { IfOk result (λ line. string_bytes line ≡ header_line session.now at) }
{
    let sizes = sizes_text(
        alloc,
        at,
        session.m(),
        session.t(),
        session.length(),
        session.symbols(),
    )?;
    let seed = hex::encode(alloc, session.seed())?;
    header_rest_text(
        alloc,
        sizes.as_str(),
        systematic_digit(session),
        session.table(),
        seed.as_str(),
    )
}

// The line of a packet record at this offset.
#[tactic(auto, unfolding(crate::specs::Show::packet_line))]
fn packet_text(alloc: Global, at: u64, packet: &Packet) -> Result<String, AllocError>
    ensures { IfOk result (λ line. string_bytes line ≡ packet_line at packet.now) }
{
    let coefs_digits = hex::encode(alloc, packet.coefs.as_slice())?;
    let payload_digits = hex::encode(alloc, packet.payload.as_slice())?;
    let coefs = coefs_digits.as_str();
    let payload = payload_digits.as_str();
    let batch = packet.batch;
    format!(in alloc; "packet at={at} batch={batch} coefs={coefs} payload={payload}\n")
}

// The line of an item.
fn item_text(alloc: Global, session: &Session, item: &Item) -> Result<String, AllocError>
    ensures { IfOk result (λ line. string_bytes line ≡ item_line session.now item.now) }
{
    match item {
        Item::Header { at } => header_text(alloc, session, *at),
        Item::Packet { at, packet } => packet_text(alloc, *at, packet),
    }
}

// Writes the line of an item.
fn write_item<O: Sink>(
    alloc: Global,
    session: &Session,
    output: &mut O,
    item: &Item,
) -> Result<(), Stop>
    ensures { Writes (O.state output.old) (O.state output.new)
        (item_line session.now item.now) (result_err result) }
{
    let line = item_text(alloc, session, item)?;
    write_bytes(output, line.as_bytes())
}

impl Taker<()> for Shown {
    ghost gives = { λ first given now tools session list start output taken. HasShown now.headers now.packets session list start output taken };

    // Writes the line of an item, and counts it.
    fn take<O: Sink>(
        &mut self,
        alloc: Global,
        session: &Session,
        item: Item,
        output: &mut O,
        _tools: &mut (),
    ) -> Result<Next, Stop> {
        write_item(alloc, session, output, &item)?;
        self.add(&item);
        Ok(Next::GoesOn)
    }
}

// The notes line with these numbers.
fn counts_text(alloc: Global, headers: u32, packets: u32) -> Result<String, AllocError>
    ensures { IfOk result (λ line. string_bytes line ≡ show_line headers packets) }
{
    format!(in alloc; "show: headers={headers} packets={packets}\n")
}

// How a run ends that has shown all of the input.
fn done(alloc: Global, shown: &Shown) -> Result<Finish, AllocError>
    ensures status { IfOk result (λ finish. finish.status ≡ statuses.Done) }
    ensures line { IfOk result (λ finish. string_bytes finish.line ≡ show_line shown.now.headers shown.now.packets) }
{
    let line = counts_text(alloc, shown.headers, shown.packets)?;
    Ok(Finish {
        status: Status::Done,
        line,
    })
}

/// Does `show`: writes a line for each record of the input as it is read.
pub fn show<S: Source, O: Sink>(
    alloc: Global,
    input: &mut S,
    output: &mut O,
) -> Result<Finish, Stop>
    ensures { AttemptsUncounted show_promise
        (record { input = S.state input.old; output = O.state output.old })
        (record { input = S.state input.new; output = O.state output.new })
        result }
{
    let mut shown = Shown {
        headers: 0,
        packets: 0,
    };
    match walk(alloc, input, &mut shown, output, &mut ())? {
        WalkEnd::Whole => Ok(done(alloc, &shown)?),
        WalkEnd::Refused(end) => Ok(input_refusal(alloc, end)?),
        // each item is shown
        WalkEnd::Halted => unreachable!(),
    }
}
