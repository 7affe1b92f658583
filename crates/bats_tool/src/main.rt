//! BATS codes with source, recoding relays and sink: the command line.
#![tactic(auto)]

ghost use Rattle.std.specs.Prelude.{◌≡◌, ◌<◌};

mod laws;
mod run;
#[cfg(test)]
mod tests;

use bats_io::{Sink, Source, StdSink, StdSource};
use bats_stripes::{Gate, OpenGate};
use gf_rows::Steps;
use run::run;
use std::alloc::Global;
use std::io::{BufReader, BufWriter, Read, Write};
use std::marker::Brand;
use std::process::ExitCode;
use std::rt::Env;
use std::sync::ledger::{Blank, Ledger};
use std::thread::Threads;
use std::{env, io};
use tool_records::Counters;
use tool_run::Status;

// Bytes of the buffer for the standard input.
const INPUT_BUFFER: usize = 65536;

// Runs the program with counters that begin at 0. What it promises is the contract of `run`.
fn run_counted<R: Threads + Sync, G: Gate, S: Source, O: Sink, N: Sink, C: Ledger, L: Ledger>(
    rt: &R,
    alloc: Global,
    words: &Vec<String>,
    gate: &G,
    input: &mut S,
    output: &mut O,
    notes: &mut N,
    blanks: (Blank, Blank),
) -> Status
    requires coef_name { blanks.0.name ≡ C.name }
    requires coef_parts { blanks.0.parts ≡ C.parts }
    requires coef_some { 0 < blanks.0.parts }
    requires name { blanks.1.name ≡ L.name }
    requires parts { blanks.1.parts ≡ L.parts }
    requires some { 0 < blanks.1.parts }
{
    let (coef_blank, blank) = blanks;
    let mut counters = Counters {
        coef_steps: Steps::<C>::new(coef_blank),
        steps: Steps::<L>::new(blank),
    };
    run(rt, alloc, words, gate, input, output, notes, &mut counters)
}

// The words after the program's name. Words that are no text are no command, as are no words.
fn words_of<R: Env + AllocGlobal>(rt: &R) -> io::Result<Vec<String>> {
    match env::args(rt) {
        Ok(words) => Ok(words.skip(1).collect(rt.alloc())?),
        Err(error) if error.kind() == io::ErrorKind::OutOfMemory => Err(error),
        Err(_) => Ok(Vec::new(rt.alloc())),
    }
}

// Runs the program on its own words, with a buffer behind the input, whose records are read in small parts, and one
// before the output.
fn run_process<R: Threads + Sync + Env + AllocGlobal, I: Read, O: Write, N: Write>(
    rt: &R,
    input: I,
    output: O,
    notes: N,
) -> io::Result<Status>
where
    I: Drop,
    O: Drop,
    N: Drop,
{
    let alloc = rt.alloc();
    let words = words_of(rt)?;
    let input = BufReader::with_capacity(alloc, INPUT_BUFFER, input)?;
    let output = BufWriter::new(alloc, output)?;
    let mut input = StdSource::new(input);
    let mut output = StdSink::new(output);
    let mut notes = StdSink::new(notes);
    let blanks = (Blank::new(1), Blank::new(1));
    Ok(run_counted::<_, _, _, _, _, Brand, Brand>(
        rt,
        alloc,
        &words,
        &OpenGate,
        &mut input,
        &mut output,
        &mut notes,
        blanks,
    ))
}

fn main(rt: HostRuntime) -> ExitCode {
    let status = match run_process(&rt, rt.stdin(), rt.stdout(), rt.stderr()) {
        Ok(status) => status,
        Err(_) => {
            let _ = rt.eprintln("bats: out of memory");
            Status::Memory
        }
    };
    ExitCode::from(status.code())
}
