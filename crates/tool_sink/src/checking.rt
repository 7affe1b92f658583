//! The command `check`.
ghost use Rattle.std.specs.Prelude.{◌≡◌, ◌<◌, ◌≤◌, ◌+◌, ◌*◌, ◌++◌, List, length, codes, string_bytes, IfOk};
ghost use Rattle.std.specs.Fmt.{decimal};
ghost use Rattle.bats_decode.specs.Decoder.{StandsFor};
ghost use Rattle.bats_model.specs.declared.packet.Packet.{Packet};
ghost use Rattle.bats_words.specs.Options.{HasWorkers};
ghost use Rattle.tool_run.specs.Attempt.{Attempts};
ghost use Rattle.tool_run.specs.Streams.{Counters as Counts};
ghost use Rattle.tool_sink.specs.Check.{answer_text, check_promise};
ghost use Rattle.tool_sink.specs.steps.Lines.{held_lines, line_at, numbers_line};
ghost use Rattle.tool_sink.specs.steps.Telling.{IsListEnding, TellsAs};

use crate::answers::finish_of;
use crate::receiving::{Intake, Reception, receive_all};
use bats_batch::Held;
use bats_io::{Sink, Source};
use bats_model::{Answer, Session};
use bats_stripes::Gate;
use std::alloc::{AllocError, Global};
use std::sync::ledger::Ledger;
use std::thread::Threads;
use tool_records::Counters;
use tool_run::{Finish, Stop, write_bytes};

// The line of a held batch, from its numbers.
fn numbers_line(alloc: Global, number: u32, degree: u32, kept: u32) -> Result<String, AllocError>
    ensures { IfOk result (λ line. string_bytes line ≡ numbers_line number degree kept) }
{
    format!(in alloc; "batch {number} degree {degree} kept {kept}\n")
}

// The line of the held batch at this place.
fn line_at(alloc: Global, session: &Session, held: &Held, place: u32) -> Result<String, AllocError>
    requires { place < length held.now.batches }
    ensures { IfOk result (λ line. string_bytes line ≡ line_at session.now held.now.batches place) }
{
    let number = held.batch_at(place);
    let degree = bats_sampler::batch(alloc, session, number)?.degree();
    numbers_line(alloc, number, degree, held.basis_at(place).rank())
}

// Appends the line of the held batch at this place.
fn add_line(
    alloc: Global,
    session: &Session,
    held: &Held,
    place: u32,
    lines: &mut String,
) -> Result<(), AllocError>
    requires { place < length held.now.batches }
    ensures { IfOk result (λ done. string_bytes lines.new
        ≡ string_bytes lines.old ++ line_at session.now held.now.batches place) }
{
    let line = line_at(alloc, session, held, place)?;
    lines.push_str(line.as_str())
}

// The lines of the held batches.
fn held_lines(alloc: Global, session: &Session, held: &Held) -> Result<String, AllocError>
    ensures { IfOk result (λ lines. string_bytes lines ≡ held_lines session.now held.now.batches) }
{
    let mut lines = String::new(alloc);
    'batches: for place in 0..held.batches() {
        add_line(alloc, session, held, place, &mut lines)?;
    }
    Ok(lines)
}

// The line of two files that agree, which differ in this symbol.
fn need_more_text(alloc: Global, at_symbol: u32) -> Result<String, AllocError>
    ensures { IfOk result (λ line. string_bytes line
        ≡ codes "answer need-more open " ++ (decimal at_symbol ++ codes "\n")) }
{
    format!(in alloc; "answer need-more open {at_symbol}\n")
}

// The line of an answer.
fn answer_text(alloc: Global, answer: &Answer) -> Result<String, AllocError>
    ensures { IfOk result (λ line. string_bytes line ≡ answer_text answer.now) }
{
    match answer {
        Answer::File(_) => String::from_str(alloc, "answer file\n"),
        Answer::Inconsistent => String::from_str(alloc, "answer inconsistent\n"),
        Answer::NeedMore { at_symbol, .. } => need_more_text(alloc, *at_symbol),
    }
}

// Appends the line of an answer.
fn add_answer(alloc: Global, answer: &Answer, lines: &mut String) -> Result<(), AllocError>
    ensures { IfOk result (λ done. string_bytes lines.new ≡ string_bytes lines.old ++ answer_text answer.now) }
{
    let line = answer_text(alloc, answer)?;
    lines.push_str(line.as_str())
}

// Writes a line for each batch that is held, and one for the answer to the packets that were received.
fn write_lines<R: Threads + Sync, G: Gate, O: Sink, C: Ledger, L: Ledger>(
    rt: &R,
    alloc: Global,
    workers: u32,
    gate: &G,
    intake: Intake,
    output: &mut O,
    counters: &mut Counters<C, L>,
) -> Result<Finish, Stop>
    requires { HasWorkers workers }
    ensures { (packets : List Packet) (first : Counts) → StandsFor packets intake.decoder
        → intake.decoder.packets ≡ length packets → intake.decoder.held.session ≡ intake.session
        → counters.old.steps ≤ first.payloads + length packets * intake.decoder.held.session.m
        → TellsAs (IsListEnding intake.session packets) first
        (record { coefficients = counters.new.coef_steps; payloads = counters.new.steps })
        (O.state output.old)
        (O.state output.new)
        result }
{
    let mut lines = held_lines(alloc, &intake.session, intake.decoder.held())?;
    let solved = intake.decoder.solve_with(
        rt,
        workers,
        gate,
        &mut counters.coef_steps,
        &mut counters.steps,
    )?;
    let finish = finish_of(alloc, "check", &solved)?;
    add_answer(alloc, &solved.answer, &mut lines)?;
    write_bytes(output, lines.as_bytes())?;
    Ok(finish)
}

/// Does `check`: receives the packets of the input, and writes a line for each batch that is held, numbers rising, and one
/// that says what the answer is. The number of workers is 1 to 64, and each passes the gate before it works on the payloads.
pub fn check<R: Threads + Sync, G: Gate, S: Source, O: Sink, C: Ledger, L: Ledger>(
    rt: &R,
    alloc: Global,
    workers: u32,
    gate: &G,
    input: &mut S,
    output: &mut O,
    counters: &mut Counters<C, L>,
) -> Result<Finish, Stop>
    requires { HasWorkers workers }
    ensures { Attempts check_promise
        (record { input = S.state input.old; output = O.state output.old })
        (record { input = S.state input.new; output = O.state output.new })
        (record { coefficients = counters.old.coef_steps; payloads = counters.old.steps })
        (record { coefficients = counters.new.coef_steps; payloads = counters.new.steps })
        result }
{
    match receive_all(alloc, input, output, counters)? {
        Reception::Whole(intake) => write_lines(rt, alloc, workers, gate, intake, output, counters),
        Reception::Ended(finish) => Ok(finish),
    }
}
