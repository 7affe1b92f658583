ghost use Rattle.std.specs.Prelude.{◌≡◌, ◌<◌, false, length, OnOk, OnErr};
ghost use Rattle.bats_io.specs.Faults.{Rose};
ghost use Rattle.bats_io.specs.Sink.{Appends, AppendsPrefix};

use crate::{Failed, Sink};

/// Writes all of `bytes`, in as many writes as the sink needs. After `Failed` a prefix of them was appended.
#[tactic(auto, using(crate::proofs::Appended::pieces))]
pub fn write_whole<K: Sink>(sink: &mut K, bytes: &[u8]) -> Result<(), Failed>
    ensures appended { OnOk result (Appends (K.state sink.old).written (K.state sink.new).written bytes.now) }
    ensures unflushed { OnOk result (0 < length bytes.now → (K.state sink.new).flushed ≡ false) }
    ensures nothing_to_write { OnOk result (length bytes.now ≡ 0
        → (K.state sink.new).flushed ≡ (K.state sink.old).flushed) }
    ensures no_fault { OnOk result ((K.state sink.new).faults ≡ (K.state sink.old).faults) }
    ensures failed { OnErr result (Rose (K.state sink.old).faults (K.state sink.new).faults) }
    ensures prefix { OnErr result (AppendsPrefix (K.state sink.old).written (K.state sink.new).written bytes.now) }
{
    let mut done = 0;
    while done < bytes.len() {
        done += sink.write(&bytes[done..])?;
    }
    Ok(())
}
