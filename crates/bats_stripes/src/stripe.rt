//! A plan on the rows of one stripe.
ghost use Rattle.std.specs.Prelude.{◌≡◌, ◌≢◌, ◌<◌, ◌≤◌, ◌*◌, All, length};
ghost use Rattle.gf_rows.specs.declared.operation.Op.TheVariants.{AddScaled, Scale};
ghost use Rattle.gf_rows.specs.Matrix.{rows_of};
ghost use Rattle.gf_rows.specs.Operation.{FitsRows, IsRowOperation, op_on_rows};
ghost use Rattle.gf_rows.specs.Plan.{plan_on_rows};

use crate::inside::add_scaled_inside;
use gf_core::Gf;
use gf_rows::{Op, Plan, scale_row};

// Adds `factor` times row `src` to row `dst`, another row.
fn add_row(stripe: &mut [u8], rows: u32, stride: usize, dst: u32, factor: Gf, src: u32)
    requires size { length stripe.old ≡ rows * stride }
    requires stride { stride ≤ 2080 }
    requires dst { dst < rows }
    requires src { src < rows }
    requires apart { dst ≢ src }
    ensures size { length stripe.new ≡ rows * stride }
    ensures rows { rows_of rows stride stripe.new ≡ op_on_rows (rows_of rows stride stripe.old) (AddScaled dst src factor) }
{
    add_scaled_inside(
        stripe,
        stride,
        dst as usize * stride,
        factor,
        src as usize * stride,
    );
}

// Makes row `row` `factor` times itself, where `factor` isn't 0.
fn scale(stripe: &mut [u8], rows: u32, stride: usize, row: u32, factor: Gf)
    requires size { length stripe.old ≡ rows * stride }
    requires stride { stride ≤ 2080 }
    requires row { row < rows }
    requires factor { factor ≢ 0 }
    ensures size { length stripe.new ≡ rows * stride }
    ensures rows { rows_of rows stride stripe.new ≡ op_on_rows (rows_of rows stride stripe.old) (Scale row factor) }
{
    let start = row as usize * stride;
    scale_row(&mut stripe[start..start + stride], factor);
}

// Does one operation on the rows.
fn perform(stripe: &mut [u8], rows: u32, stride: usize, op: Op)
    requires size { length stripe.old ≡ rows * stride }
    requires stride { stride ≤ 2080 }
    requires fits { FitsRows rows op }
    requires rule { IsRowOperation op }
    ensures size { length stripe.new ≡ rows * stride }
    ensures rows { rows_of rows stride stripe.new ≡ op_on_rows (rows_of rows stride stripe.old) op }
{
    match op {
        Op::AddScaled { dst, src, factor } => add_row(stripe, rows, stride, dst, factor, src),
        Op::Scale { row, factor } => scale(stripe, rows, stride, row, factor),
    }
}

/// Runs the whole plan on the rows of a stripe, each of `stride` bytes.
pub(crate) fn run(stripe: &mut [u8], rows: u32, stride: usize, plan: &Plan)
    requires size { length stripe.old ≡ rows * stride }
    requires stride { stride ≤ 2080 }
    requires fits { All (FitsRows rows) plan.now }
    ensures size { length stripe.new ≡ rows * stride }
    ensures rows { rows_of rows stride stripe.new ≡ plan_on_rows plan.now (rows_of rows stride stripe.old) }
{
    'operations: for i in 0..plan.len() {
        perform(stripe, rows, stride, plan.get(i));
    }
}
