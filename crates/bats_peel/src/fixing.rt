//! Whether a batch fixes its contributors that aren't known, and how.
ghost use Rattle.std.specs.Prelude.{◌≡◌, ◌<◌, ◌≤◌, ◌+◌, ◌*◌, All, IfOk, length, slice_index};
ghost use Rattle.std.specs.List.{range_with_len};
ghost use Rattle.gf_rows.specs.Matrix.{IsMatrix, matrix_entry};
ghost use Rattle.bats_model.specs.Batch.{degree_of};
ghost use Rattle.bats_peel.specs.steps.Local.{WritesEntries};
ghost use Rattle.bats_peel.specs.steps.Fixing.{AreOutside, FixesAs, HasColumns, IsLocal};

use crate::local::Local;
use bats_dense::reduce;
use bats_model::Nums;
use gf_rows::{Matrix, Plan, Steps};
use std::alloc::{AllocError, Global};
use std::sync::ledger::Ledger;

/// How a batch gives its contributors that aren't known. Numbers of rows are those of the batch's own.
#[derive(Drop)]
pub(crate) struct Fixing {
    /// The places of the contributors that aren't known, rising.
    pub(crate) places: Nums,
    /// Operations on the batch's rows.
    pub(crate) plan: Plan,
    /// The row that each of these contributors is left in once the plan was run.
    pub(crate) rows: Nums,
    /// The other rows, in which nothing is left.
    pub(crate) zero_rows: Nums,
}

// The places of the contributors that aren't known.
fn unknown_places(alloc: Global, local: &Local, known: &[bool]) -> Result<Nums, AllocError>
    requires { IsLocal (length known.now) local.now }
    ensures { IfOk result (AreOutside local.now known.now (degree_of local.now.batch)) }
{
    let mut places = Nums::new(alloc);
    'contributors: for k in 0..local.batch.degree() {
        if !known[local.batch.contributor(k) as usize] {
            places.push(k)?;
        }
    }
    Ok(places)
}

// Copies the entries of row `r` at these places.
fn copy_columns(columns: &mut Matrix, matrix: &Matrix, r: u32, places: &[u32])
    requires matrix { IsMatrix columns.old }
    requires row { r < length columns.old.rows }
    requires from { r < length matrix.now.rows }
    requires columns { columns.old.cols ≡ length places.now }
    requires within { All (λ k. k < matrix.now.cols) places.now }
    requires few { length places.now ≤ 128 }
    ensures { WritesEntries (λ j. matrix_entry matrix.now r (slice_index places.now j)) (length places.now) r columns.old columns.new }
{
    'places: for (j, place) in places.iter().enumerate() {
        columns.set(r, j as u32, matrix.get(r, *place));
    }
}

// The columns of the matrix at these places.
fn columns_at(alloc: Global, matrix: &Matrix, places: &[u32]) -> Result<Matrix, AllocError>
    requires within { All (λ k. k < matrix.now.cols) places.now }
    requires few { length places.now ≤ 128 }
    ensures { IfOk result (HasColumns matrix.now places.now (length matrix.now.rows)) }
{
    let mut columns = Matrix::zeros(alloc, matrix.rows(), places.len() as u32)?;
    'rows: for r in 0..matrix.rows() {
        copy_columns(&mut columns, matrix, r, places);
    }
    Ok(columns)
}

// The numbers from 0 on, this many.
fn numbers_below(alloc: Global, count: u32) -> Result<Nums, AllocError>
    ensures { IfOk result (λ numbers. numbers ≡ range_with_len 0 count) }
{
    let mut numbers = Nums::new(alloc);
    'numbers: for i in 0..count {
        numbers.push(i)?;
    }
    Ok(numbers)
}

/// How the batch fixes its contributors that aren't known, if there are some and it does. Where it is tried, which is
/// where these are at most as many as its rank, that costs at most rank times their number of steps.
pub(crate) fn fix<C: Ledger>(
    alloc: Global,
    local: &Local,
    known: &[bool],
    coef_steps: &mut Steps<C>,
) -> Result<Option<Fixing>, AllocError>
    requires { IsLocal (length known.now) local.now }
    ensures found { IfOk result (FixesAs local.now known.now) }
    ensures coef_steps { coef_steps.new ≤ coef_steps.old + length local.now.matrix.rows * degree_of local.now.batch }
    ensures coef_steps_rise { coef_steps.old ≤ coef_steps.new }
{
    let places = unknown_places(alloc, local, known)?;
    let count = places.len() as u32;
    if count == 0 || count > local.matrix.rows() {
        return Ok(None);
    }
    let columns = columns_at(alloc, &local.matrix, places.as_slice())?;
    let rows = numbers_below(alloc, local.matrix.rows())?;
    let dense = reduce(
        alloc,
        columns,
        rows,
        Nums::new(alloc),
        Plan::new(alloc),
        coef_steps,
    )?;
    if dense.free.len() > 0 {
        return Ok(None);
    }
    Ok(Some(Fixing {
        places,
        plan: dense.plan,
        rows: dense.pivot_rows,
        zero_rows: dense.zero_rows,
    }))
}
