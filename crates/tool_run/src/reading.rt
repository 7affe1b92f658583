ghost use Rattle.std.specs.Prelude.{◌≡◌, ◌^◌, ◌<◌, length};
ghost use Rattle.tool_run.specs.Reads.{Reads, ReadsPiece};

use crate::stop::Stop;
use bats_io::Source;
use std::alloc::Global;

// How many bytes one read may give, at most.
const CHUNK: usize = 65536;

// A size for the buffer, as a value that proofs don't compute with.
fn chunk() -> usize
    ensures { 0 < result }
{
    CHUNK
}

// Reads at most `room` bytes once, and appends them to the file. The answer is their number, 0 at the end.
fn read_piece<S: Source>(
    input: &mut S,
    buffer: &mut [u8],
    file: &mut Vec<u8>,
    room: usize,
) -> Result<usize, Stop>
    requires room { 0 < room }
    requires buffer { 0 < length buffer.old }
    ensures { ReadsPiece
        (S.state input.old)
        (S.state input.new)
        file.old.items file.new.items room result }
{
    let size = room.min(buffer.len());
    match input.read(&mut buffer[..size]) {
        Ok(count) => {
            file.extend_from_slice(&buffer[..count])?;
            Ok(count)
        }
        Err(_) => Err(Stop::ReadFault),
    }
}

// The bytes of an input, up to `most` and one more.
fn read_up_to<S: Source>(
    alloc: Global,
    input: &mut S,
    buffer: &mut [u8],
    most: usize,
) -> Result<Vec<u8>, Stop>
    requires most { most < 2 ^ 32 }
    requires buffer { 0 < length buffer.old }
    ensures { Reads
        (S.state input.old)
        (S.state input.new)
        most result }
{
    let mut file = Vec::new(alloc);
    while file.len() <= most {
        let room = most + 1 - file.len();
        if read_piece(input, buffer, &mut file, room)? == 0 {
            return Ok(file);
        }
    }
    Ok(file)
}

/// The bytes of an input, up to `most` and one more, so that an input without an end is seen to be too long.
pub fn read_file<S: Source>(alloc: Global, input: &mut S, most: usize) -> Result<Vec<u8>, Stop>
    requires { most < 2 ^ 32 }
    ensures { Reads
        (S.state input.old)
        (S.state input.new)
        most result }
{
    let mut buffer = vec![in alloc; 0; chunk()]?;
    read_up_to(alloc, input, &mut buffer, most)
}
