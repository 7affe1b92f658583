// Which calls of a source or a sink in memory fail, by number.
ghost use Rattle.std.specs.Prelude.{◌≡◌, ◌↔◌, Contains, IsErr, OnOk, OnErr};
ghost use Rattle.bats_io.specs.Faults.{raised};

use crate::Failed;

#[derive(Drop)]
pub(crate) struct Schedule {
    pub(crate) fails: Vec<u64>,
    pub(crate) calls: u64,
    pub(crate) faults: u64,
}

impl Schedule {
    // No call yet, and no fault.
    pub(crate) fn new(fails: Vec<u64>) -> Self
        ensures { result ≡ record { fails = fails; calls = 0; faults = 0 } }
    {
        Schedule {
            fails,
            calls: 0,
            faults: 0,
        }
    }

    // Numbers a call, and fails it where its number is listed.
    pub(crate) fn begin_call(&mut self) -> Result<(), Failed>
        ensures due { IsErr result ↔ Contains self.old.fails.items (raised self.old.calls) }
        ensures ok { OnOk result (self.new ≡ record self.old { calls = raised self.old.calls }) }
        ensures err { OnErr result (self.new ≡ record self.old {
          calls = raised self.old.calls;
          faults = raised self.old.faults;
        }) }
    {
        self.calls = self.calls.saturating_add(1);
        if self.fails.contains(&self.calls) {
            return Err(self.fail());
        }
        Ok(())
    }

    // Counts a fault.
    pub(crate) fn fail(&mut self) -> Failed
        ensures { self.new ≡ record self.old { faults = raised self.old.faults } }
    {
        self.faults = self.faults.saturating_add(1);
        Failed
    }
}
