ghost use Rattle.std.specs.Prelude.{◌≡◌, ◌<◌, ◌≤◌, true, false, length, take, IfOk, OnOk, OnErr};
ghost use Rattle.bats_io.specs.Faults.{Rose};
ghost use Rattle.bats_io.specs.Sink.{Appends};
ghost use Rattle.bats_io.specs.Streams.{OutputState};

use crate::Failed;

/// Where bytes go.
pub trait Sink {
    /// The bytes written, where the sink tells them, whether a flush answered `Ok` and no byte was written since, and
    /// how often it has failed, which never falls.
    ghost state: { Self → OutputState };

    /// Writes a front of `piece`, of at least one byte, and answers its length. After `Failed` nothing was
    /// appended, and nothing is said of `flushed`.
    fn write(&mut self, piece: &[u8]) -> Result<usize, Failed>
        requires { 0 < length piece.now }
        ensures some { IfOk result (λ n. 1 ≤ n) }
        ensures within { IfOk result (λ n. n ≤ length piece.now) }
        ensures appended { IfOk result (λ n.
            Appends (state self.old).written (state self.new).written (take n piece.now)) }
        ensures unflushed { OnOk result ((state self.new).flushed ≡ false) }
        ensures no_fault { OnOk result ((state self.new).faults ≡ (state self.old).faults) }
        ensures failed { OnErr result (Rose (state self.old).faults (state self.new).faults) }
        ensures nothing_appended { OnErr result ((state self.new).written ≡ (state self.old).written) };

    /// Passes on what was written. It changes no written byte, also after `Failed`.
    fn flush(&mut self) -> Result<(), Failed>
        ensures same_bytes { (state self.new).written ≡ (state self.old).written }
        ensures flushed { OnOk result ((state self.new).flushed ≡ true) }
        ensures no_fault { OnOk result ((state self.new).faults ≡ (state self.old).faults) }
        ensures failed { OnErr result (Rose (state self.old).faults (state self.new).faults) };
}
