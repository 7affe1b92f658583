ghost use Rattle.std.specs.Prelude.{◌≡◌, ◌↔◌, ◌<◌, ◌≤◌, ◌++◌, Some, Contains, length, min, take, drop, IfOk, OnOk, OnErr, IsErr};
ghost use Rattle.bats_io.specs.Faults.{Rose, raised};
ghost use Rattle.bats_io.specs.Source.{Takes};

use crate::schedule::Schedule;
use crate::{Failed, Source};
use std::marker::Model;

/// A source of bytes in memory. Each read gives at most `most` bytes. Reads are numbered from 1, and those whose
/// number is listed fail.
#[derive(Drop)]
pub struct MemSource {
    bytes: Vec<u8>,
    taken: usize,
    most: usize,
    schedule: Schedule,
}

impl Model for MemSource {
    ghost use Rattle.std.specs.Prelude.{◌≤◌, drop, length};
    ghost use Rattle.bats_io.specs.Memory.{MemoryOfSource};

    ghost Value = { MemoryOfSource };

    ghost view = { λ source. record {
      left = drop source.taken source.bytes.items;
      most = source.most;
      fails = source.schedule.fails.items;
      calls = source.schedule.calls;
      faults = source.schedule.faults;
    } };

    ghost invariant = { λ source. (source.taken ≤ length source.bytes.items) × (1 ≤ source.most) };
}

impl MemSource {
    /// A source of these bytes, of which each read gives at most `most`. The reads whose number is in `fails`
    /// fail. The number of the read and the count of faults stay at `u64::MAX` once they are there.
    pub fn new(bytes: Vec<u8>, most: usize, fails: Vec<u64>) -> Self
        requires { 1 ≤ most }
        ensures { result ≡ record {
          left = bytes.items;
          most = most;
          fails = fails.items;
          calls = 0;
          faults = 0;
        } }
    {
        MemSource {
            bytes,
            taken: 0,
            most,
            schedule: Schedule::new(fails),
        }
    }
}

impl Source for MemSource {
    ghost state = { λ source. record { left = Some source.left; faults = source.faults } };

    fn read(&mut self, buf: &mut [u8]) -> Result<usize, Failed>
        requires { 0 < length buf.old }

        // As each source.
        ensures within { IfOk result (λ n. n ≤ length buf.old) }
        ensures taken { IfOk result (λ n. Takes (Some self.old.left) (Some self.new.left) n buf.new) }
        ensures no_fault { OnOk result (self.new.faults ≡ self.old.faults) }
        ensures failed { OnErr result (Rose self.old.faults self.new.faults) }
        ensures nothing_taken { OnErr result (Some self.new.left ≡ Some self.old.left) }

        // Which reads fail.
        ensures due { IsErr result ↔ Contains self.old.fails (raised self.old.calls) }

        // What a read gives.
        ensures count { IfOk result (λ n.
            n ≡ min self.old.most (min (length buf.old) (length self.old.left))) }
        ensures given { IfOk result (λ n. buf.new ≡ take n self.old.left ++ drop n buf.old) }
        ensures ok { IfOk result (λ n. self.new ≡ record self.old {
          left = drop n self.old.left;
          calls = raised self.old.calls;
        }) }

        // What a failure changes.
        ensures same_buffer { OnErr result (buf.new ≡ buf.old) }
        ensures err { OnErr result (self.new ≡ record self.old {
          calls = raised self.old.calls;
          faults = raised self.old.faults;
        }) }
    {
        self.schedule.begin_call()?;
        let left = &self.bytes[self.taken..];
        let n = self.most.min(buf.len()).min(left.len());
        buf[..n].copy_from_slice(&left[..n]);
        self.taken += n;
        Ok(n)
    }
}
