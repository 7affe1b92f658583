ghost use Rattle.std.specs.Prelude.{map, string_bytes};
ghost use Rattle.tool_run.specs.Attempt.{Attempts, AttemptsUncounted};
ghost use Rattle.tool_run.specs.Promise.{reads_nothing};
ghost use Rattle.tool_run.specs.Run.{RunsBy};
ghost use Rattle.tool_run.specs.Streams.{Ends};
ghost use Rattle.bats_words.specs.Words.{command_of};
ghost use Rattle.bats_io.specs.Streams.{InputState};
ghost use Rattle.bats_tool.specs.Promises.{help_ending, promise_of, usage_ending};

use bats_io::{Sink, Source};
use bats_stripes::Gate;
use bats_words::{Command, SourceOptions, TrialOptions, WordsEnd, help_text, parse};
use std::alloc::Global;
use std::sync::ledger::Ledger;
use std::thread::Threads;
use tool_records::Counters;
use tool_replay::{replay, trial};
use tool_run::{Finish, Status, Stop, conclude, refusal, write_bytes};
use tool_sink::{check, sink};
use tool_source::source;
use tool_stream::{relay, show};

// How words end that are no command: nothing is read or written.
fn usage(alloc: Global) -> Result<Finish, Stop>
    ensures { (ends : Ends) → AttemptsUncounted (reads_nothing usage_ending) ends ends result }
{
    Ok(refusal(alloc, Status::Usage, "bats: usage\n")?)
}

// Does `help`: writes its text. Nothing is read.
fn help<O: Sink>(alloc: Global, output: &mut O) -> Result<Finish, Stop>
    ensures { (input : InputState) → AttemptsUncounted (reads_nothing help_ending)
        (record { input = input; output = O.state output.old })
        (record { input = input; output = O.state output.new })
        result }
{
    write_bytes(output, help_text().as_bytes())?;
    Ok(Finish {
        status: Status::Done,
        line: String::new(alloc),
    })
}

// Does what the words ask for, up to the notes line.
fn attempt<R: Threads + Sync, G: Gate, S: Source, O: Sink, C: Ledger, L: Ledger>(
    rt: &R,
    alloc: Global,
    words: &Vec<String>,
    gate: &G,
    input: &mut S,
    output: &mut O,
    counters: &mut Counters<C, L>,
) -> Result<Finish, Stop>
    ensures { Attempts (promise_of (command_of (map string_bytes words.now.items)))
        (record { input = S.state input.old; output = O.state output.old })
        (record { input = S.state input.new; output = O.state output.new })
        (record { coefficients = counters.old.coef_steps; payloads = counters.old.steps })
        (record { coefficients = counters.new.coef_steps; payloads = counters.new.steps })
        result }
{
    match parse(words) {
        Ok(
            Command::Source {
                m,
                t,
                table,
                systematic,
                seed,
                first,
                batches,
            },
        ) => {
            let options = SourceOptions {
                m,
                t,
                table,
                systematic,
                seed,
                first,
                batches,
            };
            source(alloc, &options, input, output)
        }
        Ok(Command::Relay { seed, extra, count }) => {
            relay(alloc, seed, extra, count, input, output, counters)
        }
        Ok(Command::Sink { workers, both }) => {
            sink(rt, alloc, workers, gate, both, input, output, counters)
        }
        Ok(
            Command::Replay {
                workers,
                both,
                pool,
            },
        ) => replay(rt, alloc, workers, both, pool, input, output, counters),
        Ok(Command::Check { workers }) => check(rt, alloc, workers, gate, input, output, counters),
        Ok(Command::Show) => show(alloc, input, output),
        Ok(
            Command::Trial {
                number,
                m,
                t,
                table,
                length,
                batches,
                relays,
                loss,
                workers,
            },
        ) => {
            let options = TrialOptions {
                number,
                m,
                t,
                table,
                length,
                batches,
                relays,
                loss,
            };
            trial(rt, alloc, &options, workers, output, counters)
        }
        Ok(Command::Help) => help(alloc, output),
        Err(WordsEnd::Usage) => usage(alloc),
        Err(WordsEnd::Memory) => Err(Stop::Memory),
    }
}

/// Runs the program on the words after its name: reads the input, writes and flushes the output, then the notes. Where `sink`
/// or `check` solves, each worker passes the gate.
pub fn run<R: Threads + Sync, G: Gate, S: Source, O: Sink, N: Sink, C: Ledger, L: Ledger>(
    rt: &R,
    alloc: Global,
    words: &Vec<String>,
    gate: &G,
    input: &mut S,
    output: &mut O,
    notes: &mut N,
    counters: &mut Counters<C, L>,
) -> Status
    ensures { RunsBy (promise_of (command_of (map string_bytes words.now.items)))
        (record {
          input = S.state input.old;
          output = O.state output.old;
          notes = N.state notes.old;
          counters = record { coefficients = counters.old.coef_steps; payloads = counters.old.steps };
        })
        (record {
          input = S.state input.new;
          output = O.state output.new;
          notes = N.state notes.new;
          counters = record { coefficients = counters.new.coef_steps; payloads = counters.new.steps };
        })
        result }
{
    let ending = attempt(rt, alloc, words, gate, input, output, counters);
    conclude(output, notes, ending)
}
