ghost use Rattle.std.specs.Prelude.{◌≡◌, ◌+◌, ◌*◌, ◌^◌, ◌<◌, ◌≤◌, ℕ, List, length, string_bytes, None, IfSome, IfOk};
ghost use Rattle.std.specs.Result.{result_err};
ghost use Rattle.bats_model.specs.Session.{symbols_of, max_symbols};
ghost use Rattle.bats_model.specs.Batch.{batch_of};
ghost use Rattle.tool_source.specs.Source.{coded_record, batch_records, packet_records, source_output, source_line, counts_line, source_promise};
ghost use Rattle.bats_words.specs.Options.{HasRanges};
ghost use Rattle.tool_source.specs.FileSession.{session_for};
ghost use Rattle.tool_run.specs.Writes.{Writes};
ghost use Rattle.tool_run.specs.Attempt.{AttemptsUncounted};
ghost use Rattle.tool_run.specs.Reads.{ReadsUpTo};
ghost use Rattle.bats_words.specs.declared.source_options.SourceOptions.{SourceOptions};
ghost use Rattle.tool_source.specs.steps.Ready.{IsReady};
ghost use Rattle.bats_io.specs.Streams.{InputState, OutputState};

use bats_encoder::Encoder;
use bats_io::{Sink, Source};
use bats_model::{Batch, Bytes, MAX_SYMBOLS, Session};
use bats_sampler::batch;
use bats_words::SourceOptions;
use std::alloc::{AllocError, Global};
use tool_records::{write_header, write_packet};
use tool_run::{Finish, Status, Stop, read_file, refusal};

// Writes the record of coded packet j of a batch.
fn write_coded<O: Sink>(
    output: &mut O,
    session: &Session,
    encoder: &Encoder,
    batch: &Batch,
    j: u32,
) -> Result<(), Stop>
    requires session { encoder.now.session ≡ session.now }
    requires batch { batch.now ≡ batch_of encoder.now.session batch.now.number }
    requires column { j < encoder.now.session.m }
    ensures { Writes (O.state output.old) (O.state output.new)
        (coded_record encoder.now.session encoder.now.file batch.now.number j) (result_err result) }
{
    let packet = encoder.coded(batch, j)?;
    write_packet(output, session, &packet)
}

// Writes the records of the coded packets of a batch, columns rising.
fn write_batch<O: Sink>(
    output: &mut O,
    session: &Session,
    encoder: &Encoder,
    batch: &Batch,
) -> Result<(), Stop>
    requires session { encoder.now.session ≡ session.now }
    requires batch { batch.now ≡ batch_of encoder.now.session batch.now.number }
    ensures { Writes (O.state output.old) (O.state output.new)
        (batch_records encoder.now.session encoder.now.file batch.now.number) (result_err result) }
{
    for j in 0..u32::from(session.m()) {
        write_coded(output, session, encoder, batch, j)?;
    }
    Ok(())
}

// Writes the records of the batch of this number.
fn write_numbered<O: Sink>(
    alloc: Global,
    output: &mut O,
    session: &Session,
    encoder: &Encoder,
    number: u32,
) -> Result<(), Stop>
    requires session { encoder.now.session ≡ session.now }
    ensures { Writes (O.state output.old) (O.state output.new)
        (batch_records encoder.now.session encoder.now.file number) (result_err result) }
{
    let batch = batch(alloc, session, number)?;
    write_batch(output, session, encoder, &batch)
}

// Writes the records of the batches asked for, batches rising.
fn write_batches<O: Sink>(
    alloc: Global,
    output: &mut O,
    session: &Session,
    encoder: &Encoder,
    first: u32,
    batches: u32,
) -> Result<(), Stop>
    requires session { encoder.now.session ≡ session.now }
    requires count { first + batches < 2 ^ 32 }
    ensures { Writes (O.state output.old) (O.state output.new)
        (packet_records encoder.now.session encoder.now.file first batches) (result_err result) }
{
    for i in 0..batches {
        write_numbered(alloc, output, session, encoder, first + i)?;
    }
    Ok(())
}

// Writes the header and the records of the batches asked for.
fn write_output<O: Sink>(
    alloc: Global,
    output: &mut O,
    session: &Session,
    encoder: &Encoder,
    first: u32,
    batches: u32,
) -> Result<(), Stop>
    requires session { encoder.now.session ≡ session.now }
    requires count { first + batches < 2 ^ 32 }
    ensures { Writes (O.state output.old) (O.state output.new)
        (source_output encoder.now.session encoder.now.file first batches) (result_err result) }
{
    write_header(output, session)?;
    write_batches(alloc, output, session, encoder, first, batches)
}

// The notes line with these numbers.
fn counts_text(
    alloc: Global,
    length: u64,
    symbols: u32,
    batches: u32,
    packets: u64,
) -> Result<String, AllocError>
    ensures { IfOk result (λ line. string_bytes line ≡ counts_line length symbols batches packets) }
{
    format!(in alloc;
        "source: length={length} symbols={symbols} batches={batches} packets={packets}\n"
    )
}

// The notes line of a source that is done.
fn line_of_session(alloc: Global, session: &Session, batches: u32) -> Result<String, AllocError>
    ensures { IfOk result (λ line. string_bytes line ≡ source_line session.now batches) }
{
    let packets = u64::from(batches) * u64::from(session.m());
    counts_text(alloc, session.length(), session.symbols(), batches, packets)
}

// The session of a file of this length, which has one where it isn't too long.
fn session_of(options: &SourceOptions, length: usize) -> Option<Session>
    requires { HasRanges options.now }
    ensures some { IfSome result (λ session. session ≡ session_for options.now length) }
    ensures within { IfSome result (λ session. symbols_of (session_for options.now length) ≤ max_symbols) }
    ensures none { result ≡ None → max_symbols < symbols_of (session_for options.now length) }
{
    let length = length as u64;
    let SourceOptions {
        m,
        t,
        table,
        systematic,
        seed,
        ..
    } = *options;
    match Session::new(m, t, length, table, systematic, seed) {
        Ok(session) => Some(session),
        Err(_) => None,
    }
}

// Sends the file of a session.
fn send<O: Sink>(
    alloc: Global,
    options: &SourceOptions,
    session: Session,
    file: Vec<u8>,
    output: &mut O,
) -> Result<Finish, Stop>
    requires ranges { HasRanges options.now }
    requires length { length file.items ≡ session.file_length }
    ensures { (before after : InputState) → IsReady options.now before after session file.items
        → AttemptsUncounted (source_promise options.now)
        (record { input = before; output = O.state output.old })
        (record { input = after; output = O.state output.new })
        result }
{
    let line = line_of_session(alloc, &session, options.batches)?;
    match Encoder::new(alloc, session, Bytes::from(file)) {
        Ok(encoder) => {
            write_output(
                alloc,
                output,
                &session,
                &encoder,
                options.first,
                options.batches,
            )?;
            Ok(Finish {
                status: Status::Done,
                line,
            })
        }
        Err(_) => unreachable!(),
    }
}

// How the run ends whose file has too many symbols: nothing is written.
fn too_long(alloc: Global) -> Result<Finish, Stop>
    ensures { (options : SourceOptions) (before after : InputState) (output : OutputState) (file : List ℕ)
        → HasRanges options → ReadsUpTo before after (max_symbols * options.t) file
        → max_symbols < symbols_of (session_for options (length file))
        → AttemptsUncounted (source_promise options)
        (record { input = before; output = output })
        (record { input = after; output = output })
        result }
{
    Ok(refusal(alloc, Status::Limit, "bats: limit symbols\n")?)
}

/// Does `source`: reads the file, and writes the packets of its batches.
pub fn source<S: Source, O: Sink>(
    alloc: Global,
    options: &SourceOptions,
    input: &mut S,
    output: &mut O,
) -> Result<Finish, Stop>
    requires { HasRanges options.now }
    ensures { AttemptsUncounted (source_promise options.now)
        (record { input = S.state input.old; output = O.state output.old })
        (record { input = S.state input.new; output = O.state output.new })
        result }
{
    let file = read_file(alloc, input, MAX_SYMBOLS as usize * options.t as usize)?;
    match session_of(options, file.len()) {
        Some(session) => send(alloc, options, session, file, output),
        None => too_long(alloc),
    }
}
