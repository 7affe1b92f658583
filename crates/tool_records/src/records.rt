ghost use Rattle.std.specs.Prelude.{◌≡◌, length};
ghost use Rattle.std.specs.Result.{result_err};
ghost use Rattle.bats_model.specs.Records.{header_record, packet_record};
ghost use Rattle.tool_run.specs.Writes.{Writes};

use bats_io::Sink;
use bats_model::{Packet, Session};
use tool_run::Stop;

/// Writes the header record of a session, 32 bytes.
pub fn write_header<O: Sink>(output: &mut O, session: &Session) -> Result<(), Stop>
    ensures { Writes (O.state output.old) (O.state output.new)
        (header_record session.now) (result_err result) }
{
    match bats_format::write_header(output, session) {
        Ok(()) => Ok(()),
        Err(_) => Err(Stop::WriteFault),
    }
}

/// Writes the record of a packet of M coefficients and T payload bytes.
pub fn write_packet<O: Sink>(output: &mut O, session: &Session, packet: &Packet) -> Result<(), Stop>
    requires coefs { length packet.now.coefs ≡ session.now.m }
    requires payload { length packet.now.payload ≡ session.now.t }
    ensures { Writes (O.state output.old) (O.state output.new)
        (packet_record packet.now.batch packet.now.coefs packet.now.payload) (result_err result) }
{
    match bats_format::write_packet(output, session, packet) {
        Ok(()) => Ok(()),
        Err(_) => Err(Stop::WriteFault),
    }
}
