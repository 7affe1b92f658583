/// What becomes of a packet that is offered to those of its batch that are kept.
#[derive(Clone, Copy, Debug, PartialEq, Eq)]
pub enum Taken {
    /// It is new, and is kept: its vector is no combination of the kept vectors.
    Kept,
    /// It says nothing new: one list of factors makes its vector and its payload of the kept ones.
    Dependent,
    /// Its vector is a combination of the kept ones, and its payload isn't the same combination of theirs.
    Contradiction,
}
