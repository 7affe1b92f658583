ghost use Rattle.tool_run.specs.Concludes.{Concludes, FlushesAndReports};

use crate::finish::Finish;
use crate::reporting::report;
use crate::status::Status;
use crate::stop::Stop;
use bats_io::Sink;

// Flushes the output, and gives the notes this line, or that of a write fault where the flush fails.
fn flush_and_report<O: Sink, N: Sink>(
    output: &mut O,
    notes: &mut N,
    line: &[u8],
    status: Status,
) -> Status
    ensures { FlushesAndReports line.now status (O.state output.old) (O.state output.new) (N.state notes.old) (N.state notes.new)
        result }
{
    match output.flush() {
        Ok(()) => report(notes, line, status),
        Err(_) => report(
            notes,
            Stop::WriteFault.line().as_bytes(),
            Stop::WriteFault.status(),
        ),
    }
}

/// Ends a run whose command ended so: the output is flushed, unless a write of it failed, and the notes get the line of
/// the end or of the cause. A flush that fails is a cause of its own. The answer is the status of the program.
pub fn conclude<O: Sink, N: Sink>(
    output: &mut O,
    notes: &mut N,
    ending: Result<Finish, Stop>,
) -> Status
    ensures { Concludes ending (O.state output.old) (O.state output.new) (N.state notes.old) (N.state notes.new) result }
{
    match ending {
        Ok(finish) => flush_and_report(output, notes, finish.line.as_bytes(), finish.status),
        Err(stop) => match stop {
            Stop::WriteFault => report(notes, stop.line().as_bytes(), stop.status()),
            Stop::ReadFault | Stop::Memory => {
                flush_and_report(output, notes, stop.line().as_bytes(), stop.status())
            }
        },
    }
}
