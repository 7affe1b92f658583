//! The command `sink`.
ghost use Rattle.std.specs.Prelude.{◌≡◌, ◌≤◌, ◌+◌, ◌*◌, ◌++◌, List, [], length, if◌then◌else◌};
ghost use Rattle.std.specs.Result.{result_err};
ghost use Rattle.bats_decode.specs.Decoder.{StandsFor};
ghost use Rattle.bats_model.specs.declared.packet.Packet.{Packet};
ghost use Rattle.bats_words.specs.Options.{HasWorkers};
ghost use Rattle.tool_run.specs.Attempt.{Attempts};
ghost use Rattle.tool_run.specs.Streams.{Counters as Counts};
ghost use Rattle.tool_run.specs.Writes.{Writes};
ghost use Rattle.tool_sink.specs.Sink.{answer_output, sink_promise};
ghost use Rattle.tool_sink.specs.steps.Telling.{IsFileEnding, TellsAs};

use crate::answers::finish_of;
use crate::receiving::{Reception, receive_all};
use bats_decode::Decoder;
use bats_io::{Sink, Source};
use bats_model::Answer;
use bats_stripes::Gate;
use std::alloc::Global;
use std::sync::ledger::Ledger;
use std::thread::Threads;
use tool_records::Counters;
use tool_run::{Finish, Stop, write_bytes};

// Writes two files, one after the other, where both are asked for.
fn write_pair<O: Sink>(output: &mut O, both: bool, first: &[u8], second: &[u8]) -> Result<(), Stop>
    ensures { Writes (O.state output.old) (O.state output.new)
        (if both then (first.now ++ second.now) else []) (result_err result) }
{
    if !both {
        return Ok(());
    }
    write_bytes(output, first)?;
    write_bytes(output, second)
}

/// Writes what an answer gives: the file, or both files where they are asked for, or nothing.
pub fn write_answer<O: Sink>(output: &mut O, both: bool, answer: &Answer) -> Result<(), Stop>
    ensures { Writes (O.state output.old) (O.state output.new)
        (answer_output both answer.now) (result_err result) }
{
    match answer {
        Answer::File(file) => write_bytes(output, file.as_slice()),
        Answer::Inconsistent => Ok(()),
        Answer::NeedMore { first, second, .. } => {
            write_pair(output, both, first.as_slice(), second.as_slice())
        }
    }
}

// Solves for the file of the packets that were received, and writes the answer.
fn write_file<R: Threads + Sync, G: Gate, O: Sink, C: Ledger, L: Ledger>(
    rt: &R,
    alloc: Global,
    workers: u32,
    gate: &G,
    both: bool,
    decoder: Decoder,
    output: &mut O,
    counters: &mut Counters<C, L>,
) -> Result<Finish, Stop>
    requires { HasWorkers workers }
    ensures { (packets : List Packet) (first : Counts) → StandsFor packets decoder → decoder.packets ≡ length packets
        → counters.old.steps ≤ first.payloads + length packets * decoder.held.session.m
        → TellsAs (IsFileEnding both decoder.held.session packets) first
        (record { coefficients = counters.new.coef_steps; payloads = counters.new.steps })
        (O.state output.old)
        (O.state output.new)
        result }
{
    let solved = decoder.solve_with(
        rt,
        workers,
        gate,
        &mut counters.coef_steps,
        &mut counters.steps,
    )?;
    let finish = finish_of(alloc, "sink", &solved)?;
    write_answer(output, both, &solved.answer)?;
    Ok(finish)
}

/// Does `sink`: receives the packets of the input, and writes the file that they give, or says why there is none. The
/// number of workers is 1 to 64, and each passes the gate before it works on the payloads.
pub fn sink<R: Threads + Sync, G: Gate, S: Source, O: Sink, C: Ledger, L: Ledger>(
    rt: &R,
    alloc: Global,
    workers: u32,
    gate: &G,
    both: bool,
    input: &mut S,
    output: &mut O,
    counters: &mut Counters<C, L>,
) -> Result<Finish, Stop>
    requires { HasWorkers workers }
    ensures { Attempts (sink_promise both)
        (record { input = S.state input.old; output = O.state output.old })
        (record { input = S.state input.new; output = O.state output.new })
        (record { coefficients = counters.old.coef_steps; payloads = counters.old.steps })
        (record { coefficients = counters.new.coef_steps; payloads = counters.new.steps })
        result }
{
    match receive_all(alloc, input, output, counters)? {
        Reception::Whole(intake) => write_file(
            rt,
            alloc,
            workers,
            gate,
            both,
            intake.decoder,
            output,
            counters,
        ),
        Reception::Ended(finish) => Ok(finish),
    }
}
