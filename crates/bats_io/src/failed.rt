/// The answer of a read, a write or a flush that failed.
#[derive(Clone, Copy, Debug, PartialEq, Eq)]
pub struct Failed;
