//! The command `trial`.
ghost use Rattle.std.specs.Prelude.{ℕ, ◌≡◌, ◌<◌, ◌≤◌, ◌+◌, ◌*◌, ◌++◌, ◌∷◌, [], List, All, codes, length, string_bytes, IfOk, OnOk};
ghost use Rattle.std.specs.Fmt.{decimal};
ghost use Rattle.std.specs.Result.{result_err};
ghost use Rattle.bats_batch.specs.Held.{max_kept, row_count};
ghost use Rattle.bats_decode.specs.Decoder.{StandsFor};
ghost use Rattle.bats_io.specs.Streams.{InputState};
ghost use Rattle.bats_model.specs.PacketFile.{HasShape};
ghost use Rattle.bats_model.specs.Session.{symbols_of};
ghost use Rattle.bats_model.specs.declared.packet.Packet.{Packet};
ghost use Rattle.bats_words.specs.Options.{HasTrialRanges, HasWorkers};
ghost use Rattle.tool_run.specs.Attempt.{Attempts};
ghost use Rattle.tool_run.specs.Streams.{Counters as Counts};
ghost use Rattle.tool_run.specs.Writes.{Writes};
ghost use Rattle.tool_replay.specs.Trial.{answer_words, sink_arrivals, trial_counts, trial_promise, trial_session};
ghost use Rattle.tool_replay.specs.steps.Hops.{arrivals_before};
ghost use Rattle.tool_replay.specs.steps.Solving.{Solves, arrivals_part, numbers_part};
ghost use Rattle.tool_sink.specs.Answers.{answer_status};

use crate::chain::cross;
use crate::trial_keys::trial_seed;
use bats_batch::HeldEnd;
use bats_decode::{Decoder, Solved};
use bats_io::Sink;
use bats_model::{Answer, Packet, Session};
use bats_words::TrialOptions;
use std::alloc::{AllocError, Global};
use std::sync::ledger::Ledger;
use std::thread::Threads;
use tool_records::Counters;
use tool_run::{Finish, Stop, write_bytes};
use tool_sink::status_of_answer;

// The session of a trial.
fn session_of(options: &TrialOptions) -> Session
    requires { HasTrialRanges options.now }
    ensures { result ≡ trial_session options.now }
{
    let TrialOptions {
        m,
        t,
        table,
        length,
        number,
        ..
    } = *options;
    match Session::new(m, t, length, table, false, trial_seed(number)) {
        Ok(session) => session,
        Err(_) => unreachable!(),
    }
}

// Gives a packet to the sink.
fn receive<C: Ledger, L: Ledger>(
    decoder: &mut Decoder,
    packet: &Packet,
    counters: &mut Counters<C, L>,
) -> Result<(), AllocError>
    requires shape { HasShape decoder.old.held.session packet.now }
    requires few { row_count decoder.old.held.batches < max_kept }
    ensures session { decoder.new.held.session ≡ decoder.old.held.session }
    ensures ok { OnOk result ((packets : List Packet) → StandsFor packets decoder.old
        → StandsFor (packets ++ packet.now ∷ []) decoder.new) }
    ensures steps { counters.new.steps ≤ counters.old.steps + decoder.old.held.session.m }
{
    match decoder.offer(packet, &mut counters.coef_steps, &mut counters.steps) {
        Ok(()) => Ok(()),
        Err(HeldEnd::Memory) => Err(AllocError),
        Err(HeldEnd::Full) => unreachable!(),
    }
}

// Gives packets to a sink that has received none.
fn receive_all<C: Ledger, L: Ledger>(
    decoder: &mut Decoder,
    packets: &[Packet],
    counters: &mut Counters<C, L>,
) -> Result<(), AllocError>
    requires shapes { All (HasShape decoder.old.held.session) packets.now }
    requires few { length packets.now ≤ max_kept }
    requires empty { StandsFor [] decoder.old }
    ensures session { decoder.new.held.session ≡ decoder.old.held.session }
    ensures ok { OnOk result (StandsFor packets.now decoder.new) }
    ensures steps { counters.new.steps ≤ counters.old.steps + length packets.now * decoder.old.held.session.m }
{
    'packets: for packet in packets {
        receive(decoder, packet, counters)?;
    }
    Ok(())
}

// What the packets say that arrived at the sink. They are dropped once it has received them.
fn solve<R: Threads + Sync, C: Ledger, L: Ledger>(
    rt: &R,
    alloc: Global,
    workers: u32,
    session: &Session,
    packets: Vec<Packet>,
    counters: &mut Counters<C, L>,
) -> Result<Solved, AllocError>
    requires workers { HasWorkers workers }
    requires shapes { All (HasShape session.now) packets.items }
    requires few { length packets.items ≤ max_kept }
    ensures { IfOk result (Solves session.now packets.items counters.old.steps counters.new.steps) }
{
    let mut decoder = Decoder::new(alloc, *session);
    receive_all(&mut decoder, &packets, counters)?;
    drop(packets);
    Ok(decoder.solve(rt, workers, &mut counters.coef_steps, &mut counters.steps)?)
}

// The front of the line.
fn numbers_text(
    alloc: Global,
    number: u64,
    symbols: u32,
    batches: u32,
) -> Result<String, AllocError>
    ensures { IfOk result (λ text. string_bytes text ≡ numbers_part number symbols batches) }
{
    format!(in alloc; "trial number={number} symbols={symbols} batches={batches}")
}

// The line before the answer, from its front.
fn counts_text(
    alloc: Global,
    numbers: &str,
    arrived: u64,
    kept: u32,
    inactive: u32,
) -> Result<String, AllocError>
    ensures { IfOk result (λ text. string_bytes text ≡ numbers.now ++ arrivals_part arrived kept inactive) }
{
    format!(in alloc; "{numbers} arrived={arrived} kept={kept} inactive={inactive} ")
}

// The line where two files agree, which differ in this symbol.
fn need_more_text(alloc: Global, counts: &str, at_symbol: u32) -> Result<String, AllocError>
    ensures { IfOk result (λ line. string_bytes line
        ≡ counts.now ++ (codes "answer=need-more open=" ++ (decimal at_symbol ++ codes "\n"))) }
{
    format!(in alloc; "{counts}answer=need-more open={at_symbol}\n")
}

// The line, from what stands before the answer.
fn line_text(alloc: Global, counts: &str, answer: &Answer) -> Result<String, AllocError>
    ensures { IfOk result (λ line. string_bytes line ≡ counts.now ++ answer_words answer.now) }
{
    match answer {
        Answer::File(_) => format!(in alloc; "{counts}answer=file\n"),
        Answer::Inconsistent => format!(in alloc; "{counts}answer=inconsistent\n"),
        Answer::NeedMore { at_symbol, .. } => need_more_text(alloc, counts, *at_symbol),
    }
}

// The line on what was solved.
fn line_of(
    alloc: Global,
    options: &TrialOptions,
    session: &Session,
    arrived: u64,
    solved: &Solved,
) -> Result<String, AllocError>
    ensures { IfOk result (λ line. string_bytes line
        ≡ trial_counts options.now.number (symbols_of session.now) options.now.batches arrived solved.now.kept solved.now.inactive
        ++ answer_words solved.now.answer) }
{
    let numbers = numbers_text(alloc, options.number, session.symbols(), options.batches)?;
    let counts = counts_text(
        alloc,
        numbers.as_str(),
        arrived,
        solved.kept,
        solved.inactive,
    )?;
    line_text(alloc, counts.as_str(), &solved.answer)
}

// Writes the line on what was solved, and ends so.
fn tell<O: Sink>(
    alloc: Global,
    options: &TrialOptions,
    session: &Session,
    arrived: u64,
    solved: &Solved,
    output: &mut O,
) -> Result<Finish, Stop>
    ensures written { Writes (O.state output.old) (O.state output.new)
        (trial_counts options.now.number (symbols_of session.now) options.now.batches arrived solved.now.kept solved.now.inactive
        ++ answer_words solved.now.answer) (result_err result) }
    ensures status { IfOk result (λ finish. finish.status ≡ answer_status solved.now.answer) }
    ensures line { IfOk result (λ finish. string_bytes finish.line ≡ []) }
{
    let line = line_of(alloc, options, session, arrived, solved)?;
    write_bytes(output, line.as_bytes())?;
    Ok(Finish {
        status: status_of_answer(&solved.answer),
        line: String::new(alloc),
    })
}

// Solves for what arrived at the sink, and tells of it.
fn tell_arrivals<R: Threads + Sync, O: Sink, C: Ledger, L: Ledger>(
    rt: &R,
    alloc: Global,
    options: &TrialOptions,
    workers: u32,
    session: &Session,
    packets: Vec<Packet>,
    output: &mut O,
    counters: &mut Counters<C, L>,
) -> Result<Finish, Stop>
    requires ranges { HasTrialRanges options.now }
    requires workers { HasWorkers workers }
    requires session { session.now ≡ trial_session options.now }
    requires arrived { packets.items ≡ sink_arrivals options.now }
    ensures { (input : InputState) (first : Counts)
        → counters.old.steps ≤ first.payloads + arrivals_before options.now options.now.relays * options.now.m
        → Attempts (trial_promise options.now)
        (record { input = input; output = O.state output.old })
        (record { input = input; output = O.state output.new })
        first
        (record { coefficients = counters.new.coef_steps; payloads = counters.new.steps })
        result }
{
    let arrived = packets.len() as u64;
    let solved = solve(rt, alloc, workers, session, packets, counters)?;
    tell(alloc, options, session, arrived, &solved, output)
}

/// Does `trial`: makes a file from the trial's number, sends it over a chain of relays with losses, and writes a line on what
/// the sink gets of it. The number of workers is 1 to 64. Nothing is read.
pub fn trial<R: Threads + Sync, O: Sink, C: Ledger, L: Ledger>(
    rt: &R,
    alloc: Global,
    options: &TrialOptions,
    workers: u32,
    output: &mut O,
    counters: &mut Counters<C, L>,
) -> Result<Finish, Stop>
    requires ranges { HasTrialRanges options.now }
    requires workers { HasWorkers workers }
    ensures { (input : InputState) → Attempts (trial_promise options.now)
        (record { input = input; output = O.state output.old })
        (record { input = input; output = O.state output.new })
        (record { coefficients = counters.old.coef_steps; payloads = counters.old.steps })
        (record { coefficients = counters.new.coef_steps; payloads = counters.new.steps })
        result }
{
    let session = session_of(options);
    let packets = cross(alloc, options, &session, counters)?;
    tell_arrivals(
        rt, alloc, options, workers, &session, packets, output, counters,
    )
}
