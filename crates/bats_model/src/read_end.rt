ghost use Rattle.std.specs.Prelude.{◌≡◌};
ghost use Rattle.bats_model.specs.declared.read_end.ReadEnd.TheVariants.{Memory};

use std::alloc::AllocError;

/// A field of the header record, in the order in which their rules are judged.
#[derive(Clone, Copy, Debug, PartialEq, Eq)]
pub enum HeaderField {
    /// The first three bytes aren't `BTS`.
    Magic,
    /// The version isn't 1.
    Version,
    /// The packets of a batch aren't 1 to 32.
    BatchSize,
    /// The degree table isn't 0 or 1, or one of bits 4 to 6 is set.
    Mode,
    /// The bytes of a symbol aren't 1 to 2,048.
    SymbolSize,
    /// The file has more than 4,096 symbols.
    Length,
}

/// Why the reading of a packet file ends before the end of the input. An offset is that of the first byte of the
/// refused record.
#[derive(Clone, Copy, Debug, PartialEq, Eq)]
pub enum ReadEnd {
    /// Memory ran out.
    Memory,
    /// A read of the input failed.
    ReadFault,
    /// The input is empty, or doesn't begin with the first byte of a header.
    NoHeader,
    /// The first record breaks a rule of the header; the first such field is told.
    BadHeader { field: HeaderField },
    /// A later record begins with a byte that begins no record.
    BadTag { at: u64, byte: u8 },
    /// A later header is another than the first.
    OtherSession { at: u64 },
    /// The input ends inside a record.
    Truncated { at: u64 },
    /// The input goes on after 1,048,576 records.
    TooManyRecords,
}

impl From<AllocError> for ReadEnd {
    ghost from_gives = { λ _ e. e ≡ Memory };

    fn from(_: AllocError) -> ReadEnd {
        ReadEnd::Memory
    }
}
