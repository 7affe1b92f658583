ghost use Rattle.tool_run.specs.Run.{Reports};

use crate::status::Status;
use bats_io::{Sink, write_whole};

/// Writes a line of the notes and flushes them. The status is the given one, unless one of the two fails.
pub fn report<N: Sink>(notes: &mut N, line: &[u8], status: Status) -> Status
    ensures { Reports (N.state notes.old) (N.state notes.new) line.now status result }
{
    if write_whole(notes, line).is_err() {
        return Status::WriteFault;
    }
    match notes.flush() {
        Ok(()) => status,
        Err(_) => Status::WriteFault,
    }
}
