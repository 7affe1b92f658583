ghost use Rattle.std.specs.Prelude.{◌≡◌};
ghost use Rattle.tool_run.specs.Status.{code_of};

/// How a run ends. The number is the program's exit status.
#[derive(Clone, Copy, Debug, PartialEq, Eq)]
pub enum Status {
    /// The command did what it is defined to do.
    Done = 0,
    /// Two files agree with all packets.
    NeedMore = 1,
    /// No file agrees with all packets.
    Inconsistent = 2,
    /// The words are no command.
    Usage = 3,
    /// The input is no packet file.
    Input = 4,
    /// The file has more than 4,096 symbols, the input goes on after 1,048,576 records, a packet is new when 8,192 are
    /// kept, a script has more than 4,194,304 bytes, or one packet more would be made when a pool has 65,536.
    Limit = 5,
    /// A read of the input failed.
    ReadFault = 6,
    /// A write or a flush of the output or of the notes failed.
    WriteFault = 7,
    /// Memory ran out.
    Memory = 8,
    /// A script has a wrong key, or an event that can't take place.
    Script = 9,
}

impl Status {
    /// The exit status of the program.
    pub fn code(self) -> u8
        ensures { result ≡ code_of self }
    {
        self as u8
    }
}
