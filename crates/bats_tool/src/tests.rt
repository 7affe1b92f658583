// Runs of the program over streams in memory.
ghost use Rattle.std.specs.Prelude.{◌≤◌};

mod answers;
mod faults;
mod limits;
mod networks;
mod refusals;
mod relays;
mod round_trips;
mod scripts;

use crate::run_counted;
use bats_io::{MemSink, MemSource};
use bats_stripes::OpenGate;
use std::alloc::{AllocError, AllocGlobal, Global};
use std::marker::Brand;
use std::process::Abort;
use std::sync::ledger::Blank;
use std::test::Fail;
use std::thread::Threads;
use tool_run::Status;

const SMALL: &str =
    "source --m 2 --t 2 --seed 00000000000000000000000000000000 --batches 1 --systematic";

// The header and the two packets of the file 01 02 03 04.
const SMALL_OUTPUT: [u8; 50] = [
    0x42, 0x54, 0x53, 0x01, 0x02, 0x80, 0x00, 0x02, 0, 0, 0, 0, 0, 0, 0, 4, 0, 0, 0, 0, 0, 0, 0, 0,
    0, 0, 0, 0, 0, 0, 0, 0, 0x50, 0, 0, 0, 0, 0x01, 0x00, 0x01, 0x02, 0x50, 0, 0, 0, 0, 0x00, 0x01,
    0x03, 0x04,
];

// The header and the two packets of the file 01 07 01 00 02, whose one batch mixes symbols 2, 4, 0 and 3.
const SAMPLED_OUTPUT: &[u8] =
    b"BTS\x01\x02\x01\0\x01\0\0\0\0\0\0\0\x05\0\0\0\0\0\0\0\0\0\0\0\0\0\0\0\0P\0\0\0\0\x01\0\xcfP\0\0\0\0\0\x01\x8f";

const RELAY: &str = "relay --seed 00000000000000000000000000000000 --rule fixed --count 2";

// A change of the small packet file that changes nothing.
const AS_IT_IS: (usize, u8) = (0, b'B');

// The lines that `show` writes of the small packet file.
const LINES: [&str; 3] = [
    "header at=0 m=2 t=2 length=4 symbols=2 systematic=1 table=0 seed=00000000000000000000000000000000\n",
    "packet at=32 batch=0 coefs=0100 payload=0102\n",
    "packet at=41 batch=0 coefs=0001 payload=0304\n",
];

// What a run left.
#[derive(Drop)]
struct Ran {
    status: Status,
    output: MemSink,
    notes: MemSink,
}

fn words_of(alloc: Global, line: &str) -> Result<Vec<String>, AllocError> {
    let mut words = Vec::new(alloc);
    for word in line.split(' ') {
        words.push(String::from_str(alloc, word)?)?;
    }
    Ok(words)
}

// A run of the words of a line on a file, with pieces of at most `most` bytes, in which one call of the input, of the
// output and of the notes fails, each by its number; there is no call 0.
fn make_run<R: AllocGlobal + Threads + Sync>(
    rt: &R,
    line: &str,
    file: &[u8],
    most: usize,
    fails: [u64; 3],
) -> Result<Ran, AllocError>
    requires { 1 ≤ most }
{
    let alloc = rt.alloc();
    let words = words_of(alloc, line)?;
    let mut input = MemSource::new(
        Vec::from_slice(alloc, file)?,
        most,
        vec![in alloc; fails[0]]?,
    );
    let mut output = MemSink::with_room(alloc, 1_100_000, most, vec![in alloc; fails[1]]?)?;
    let mut notes = MemSink::with_room(alloc, 1_000, most, vec![in alloc; fails[2]]?)?;
    let blanks = (Blank::new(1), Blank::new(1));
    let status = run_counted::<_, _, _, _, _, Brand, Brand>(
        rt,
        alloc,
        &words,
        &OpenGate,
        &mut input,
        &mut output,
        &mut notes,
        blanks,
    );
    Ok(Ran {
        status,
        output,
        notes,
    })
}

// The first bytes of the small packet file, so many, with one of them changed, and then more bytes.
fn input_of(
    alloc: Global,
    front: usize,
    change: (usize, u8),
    more: &[u8],
) -> Result<Vec<u8>, AllocError> {
    let mut bytes = Vec::new(alloc);
    for (place, byte) in SMALL_OUTPUT.iter().take(front).enumerate() {
        bytes.push(if place == change.0 { change.1 } else { *byte })?;
    }
    bytes.extend_from_slice(more)?;
    Ok(bytes)
}

// The first lines that `show` writes of the small packet file, so many.
fn first_lines(alloc: Global, count: usize) -> Result<Vec<u8>, AllocError> {
    let mut bytes = Vec::new(alloc);
    for line in LINES.iter().take(count) {
        bytes.extend_from_slice(line.as_bytes())?;
    }
    Ok(bytes)
}

// Compares what a run left with what it should leave.
fn assert_left<R: Abort>(rt: &R, run: &Ran, status: Status, output: &[u8], notes: &str) {
    assert_eq!(rt; run.notes.written(), notes.as_bytes(), "instead of {notes}");
    assert_eq!(rt; run.status, status, "at {notes}");
    assert_eq!(rt; run.output.written(), output, "at {notes}");
}
