/// What the check of a certificate says.
#[derive(Clone, Copy, Debug, PartialEq, Eq)]
pub enum Verdict {
    /// It shows what it says.
    Valid,
    /// It doesn't: this part is the first that fails.
    Broken(Part),
}

/// The parts of a certificate, in the order in which they are checked.
#[derive(Clone, Copy, Debug, PartialEq, Eq)]
pub enum Part {
    /// The one or first file doesn't agree with the packets.
    FirstFile,
    /// The second file doesn't agree with the packets.
    SecondFile,
    /// The two files don't differ in the symbol.
    Same,
    /// The factors of this row don't give its symbol. It is the lowest such row.
    Row(u32),
    /// The factors' sum takes something from a symbol.
    Factors,
    /// The factors' sum is 0 in the column.
    Sum,
}
