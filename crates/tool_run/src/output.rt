ghost use Rattle.std.specs.Result.{result_err};
ghost use Rattle.tool_run.specs.Writes.{Writes};

use crate::stop::Stop;
use bats_io::{Sink, write_whole};

/// Writes these bytes.
pub fn write_bytes<O: Sink>(output: &mut O, bytes: &[u8]) -> Result<(), Stop>
    ensures { Writes (O.state output.old) (O.state output.new) bytes.now (result_err result) }
{
    match write_whole(output, bytes) {
        Ok(()) => Ok(()),
        Err(_) => Err(Stop::WriteFault),
    }
}
