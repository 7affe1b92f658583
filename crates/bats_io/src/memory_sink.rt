ghost use Rattle.std.specs.Prelude.{◌≡◌, ◌↔◌, ◌⊎◌, ◌<◌, ◌≤◌, ◌++◌, ◌-◌, [], Some, true, false, Contains, length, min, take, IfOk, OnOk, OnErr, IsErr};
ghost use Rattle.bats_io.specs.Faults.{Rose, raised};
ghost use Rattle.bats_io.specs.Sink.{Appends};

use crate::schedule::Schedule;
use crate::{Failed, Sink};
use std::alloc::{AllocError, Global};
use std::marker::Model;

/// A sink in memory with room for a number of bytes. Each write takes at most `most` bytes. Writes and flushes are
/// numbered together from 1. Those whose number is listed fail, and so does a write where no room is left.
#[derive(Drop)]
pub struct MemSink {
    bytes: Vec<u8>,
    room: usize,
    most: usize,
    schedule: Schedule,
    flushed: bool,
}

impl Model for MemSink {
    ghost use Rattle.std.specs.Prelude.{◌≤◌, length, vec_capacity};
    ghost use Rattle.bats_io.specs.Memory.{MemoryOfSink};

    ghost Value = { MemoryOfSink };

    ghost view = { λ sink. record {
      written = sink.bytes.items;
      room = sink.room;
      most = sink.most;
      fails = sink.schedule.fails.items;
      calls = sink.schedule.calls;
      faults = sink.schedule.faults;
      flushed = sink.flushed;
    } };

    ghost invariant = { λ sink. (length sink.bytes.items ≤ sink.room)
        × (sink.room ≤ vec_capacity sink.bytes) × (1 ≤ sink.most) };
}

impl MemSink {
    /// An empty sink with room for `room` bytes, of which each write takes at most `most`. The writes and flushes
    /// whose number is in `fails` fail. The number of the call and the count of faults stay at `u64::MAX` once
    /// they are there. No later call takes memory.
    pub fn with_room(
        alloc: Global,
        room: usize,
        most: usize,
        fails: Vec<u64>,
    ) -> Result<Self, AllocError>
        requires { 1 ≤ most }
        ensures { IfOk result (λ sink. sink ≡ record {
          written = [];
          room = room;
          most = most;
          fails = fails.items;
          calls = 0;
          faults = 0;
          flushed = false;
        }) }
    {
        Ok(MemSink {
            bytes: Vec::with_capacity(alloc, room)?,
            room,
            most,
            schedule: Schedule::new(fails),
            flushed: false,
        })
    }

    /// The bytes written so far.
    pub fn written(&self) -> &[u8]
        ensures { result.now ≡ self.now.written }
    {
        &self.bytes
    }
}

impl Sink for MemSink {
    ghost state = { λ sink. record {
      written = Some sink.written;
      flushed = sink.flushed;
      faults = sink.faults;
    } };

    fn write(&mut self, piece: &[u8]) -> Result<usize, Failed>
        requires { 0 < length piece.now }

        // As each sink.
        ensures some { IfOk result (λ n. 1 ≤ n) }
        ensures within { IfOk result (λ n. n ≤ length piece.now) }
        ensures appended { IfOk result (λ n.
            Appends (Some self.old.written) (Some self.new.written) (take n piece.now)) }
        ensures unflushed { OnOk result (self.new.flushed ≡ false) }
        ensures no_fault { OnOk result (self.new.faults ≡ self.old.faults) }
        ensures failed { OnErr result (Rose self.old.faults self.new.faults) }
        ensures nothing_appended { OnErr result (Some self.new.written ≡ Some self.old.written) }

        // Which writes fail.
        ensures due { Contains self.old.fails (raised self.old.calls) → IsErr result }
        ensures full { self.old.room ≤ length self.old.written → IsErr result }
        ensures cause { OnErr result (Contains self.old.fails (raised self.old.calls)
            ⊎ (self.old.room ≤ length self.old.written)) }

        // What a write takes.
        ensures count { IfOk result (λ n.
            n ≡ min self.old.most (min (length piece.now) (self.old.room - length self.old.written))) }
        ensures ok { IfOk result (λ n. self.new ≡ record self.old {
          written = self.old.written ++ take n piece.now;
          calls = raised self.old.calls;
          flushed = false;
        }) }

        // What a failure changes.
        ensures err { OnErr result (self.new ≡ record self.old {
          calls = raised self.old.calls;
          faults = raised self.old.faults;
        }) }
    {
        self.schedule.begin_call()?;
        let n = self.most.min(piece.len()).min(self.room - self.bytes.len());
        if n == 0 {
            return Err(self.schedule.fail());
        }
        self.bytes.extend_from_slice(&piece[..n]).unwrap();
        self.flushed = false;
        Ok(n)
    }

    fn flush(&mut self) -> Result<(), Failed>
        // As each sink.
        ensures same_bytes { Some self.new.written ≡ Some self.old.written }
        ensures flushed { OnOk result (self.new.flushed ≡ true) }
        ensures no_fault { OnOk result (self.new.faults ≡ self.old.faults) }
        ensures failed { OnErr result (Rose self.old.faults self.new.faults) }

        // Which flushes fail, and what each changes.
        ensures due { IsErr result ↔ Contains self.old.fails (raised self.old.calls) }
        ensures ok { OnOk result (self.new ≡ record self.old {
          calls = raised self.old.calls;
          flushed = true;
        }) }
        ensures err { OnErr result (self.new ≡ record self.old {
          calls = raised self.old.calls;
          faults = raised self.old.faults;
        }) }
    {
        self.schedule.begin_call()?;
        self.flushed = true;
        Ok(())
    }
}
