ghost use Rattle.std.specs.Prelude.{◌≡◌};
ghost use Rattle.tool_run.specs.declared.stop.Stop.TheVariants.{Memory};
ghost use Rattle.tool_run.specs.Ending.{status_of, line_of};

use crate::status::Status;
use std::alloc::AllocError;

/// Why a run stops before it is done. There is no other cause: whatever a command refuses is an end of its own.
#[derive(Clone, Copy, Debug, PartialEq, Eq)]
pub enum Stop {
    /// A read of the input failed.
    ReadFault,
    /// A write or a flush failed.
    WriteFault,
    /// Memory ran out.
    Memory,
}

impl From<AllocError> for Stop {
    ghost from_gives = { λ _ e. e ≡ Memory };

    fn from(_: AllocError) -> Stop {
        Stop::Memory
    }
}

impl Stop {
    /// The status of a run that stops for this cause.
    pub fn status(self) -> Status
        ensures { result ≡ status_of self }
    {
        match self {
            Stop::ReadFault => Status::ReadFault,
            Stop::WriteFault => Status::WriteFault,
            Stop::Memory => Status::Memory,
        }
    }

    /// The notes line of this cause, with its line feed.
    pub fn line(self) -> &'static str
        ensures { result.now ≡ line_of self }
    {
        match self {
            Stop::ReadFault => "bats: read fault\n",
            Stop::WriteFault => "bats: write fault\n",
            Stop::Memory => "bats: out of memory\n",
        }
    }
}
