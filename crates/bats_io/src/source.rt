ghost use Rattle.std.specs.Prelude.{◌≡◌, ◌<◌, ◌≤◌, length, IfOk, OnOk, OnErr};
ghost use Rattle.bats_io.specs.Faults.{Rose};
ghost use Rattle.bats_io.specs.Source.{Takes};
ghost use Rattle.bats_io.specs.Streams.{InputState};

use crate::Failed;

/// Where bytes come from.
pub trait Source {
    /// The bytes left, where the source tells them, and how often it has failed, which never falls.
    ghost state: { Self → InputState };

    /// Reads up to `buf.len()` bytes into the front of `buf` and answers how many. `Ok(0)` is the end of the
    /// input. After `Failed` nothing is taken, and `buf` may hold anything.
    fn read(&mut self, buf: &mut [u8]) -> Result<usize, Failed>
        requires { 0 < length buf.old }
        ensures within { IfOk result (λ n. n ≤ length buf.old) }
        ensures taken { IfOk result (λ n. Takes (state self.old).left (state self.new).left n buf.new) }
        ensures no_fault { OnOk result ((state self.new).faults ≡ (state self.old).faults) }
        ensures failed { OnErr result (Rose (state self.old).faults (state self.new).faults) }
        ensures nothing_taken { OnErr result ((state self.new).left ≡ (state self.old).left) };
}
