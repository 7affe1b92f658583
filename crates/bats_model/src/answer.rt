use crate::Bytes;

/// What received packets say of the file.
#[derive(Debug, Drop)]
pub enum Answer {
    /// The one file that agrees with all packets.
    File(Bytes),
    /// No file agrees with all packets.
    Inconsistent,
    /// Two different files that agree with all packets. They differ in symbol `at_symbol`, the first one that the
    /// packets leave open.
    NeedMore {
        at_symbol: u32,
        first: Bytes,
        second: Bytes,
    },
}
