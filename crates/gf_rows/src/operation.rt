ghost use Rattle.std.specs.Prelude.{IsTrue, ◌↔◌};
ghost use Rattle.gf_rows.specs.Operation.{FitsRows};

use gf_core::Gf;

/// One operation on rows, which are named by their numbers. In `AddScaled` the two rows differ, and in `Scale`
/// the factor isn't 0, wherever a plan holds it.
#[derive(Clone, Copy, Debug, PartialEq, Eq)]
pub enum Op {
    /// Adds `factor` times row `src` to row `dst`.
    AddScaled { dst: u32, src: u32, factor: Gf },
    /// Makes row `row` `factor` times itself.
    Scale { row: u32, factor: Gf },
}

impl Op {
    // Whether the operation's rows are below a number of rows.
    pub(crate) fn fits(self, rows: u32) -> bool
        ensures { IsTrue result ↔ FitsRows rows self }
    {
        match self {
            Op::AddScaled { dst, src, .. } => dst < rows && src < rows,
            Op::Scale { row, .. } => row < rows,
        }
    }
}
