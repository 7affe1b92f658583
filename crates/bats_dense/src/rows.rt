//! The row operations of one column, each of which is done on the matrix and appended to the plan.
ghost use Rattle.std.specs.Prelude.{◌≡◌, ◌≢◌, ◌+◌, ◌<◌, ◌≤◌, [], ◌∷◌, All, OnOk, length, slice_index};
ghost use Rattle.gf_rows.specs.Matrix.{matrix_entry};
ghost use Rattle.gf_rows.specs.Spends.{Spends};
ghost use Rattle.bats_dense.specs.Reduced.{AreTargets};
ghost use Rattle.bats_dense.specs.steps.Clearing.{Clears, Normalizes, ClearsColumn};

use gf_core::Gf;
use gf_rows::{Matrix, Op, Plan, Steps};
use std::alloc::AllocError;
use std::sync::ledger::Ledger;

// Makes a row 0 in a column where the pivot row is 1. It is at most one operation, and none where the row is 0 there.
fn clear_row<C: Ledger>(
    matrix: &mut Matrix,
    plan: &mut Plan,
    pivot: u32,
    column: u32,
    row: u32,
    coef_steps: &mut Steps<C>,
) -> Result<(), AllocError>
    requires pivot { pivot < length matrix.old.rows }
    requires column { column < matrix.old.cols }
    requires row { row < length matrix.old.rows }
    requires apart { row ≢ pivot }
    requires one { matrix_entry matrix.old pivot column ≡ 1 }
    ensures clears { OnOk result (Clears pivot column (row ∷ []) matrix.old matrix.new plan.old plan.new) }
    ensures counted { OnOk result (coef_steps.new + length plan.old ≡ coef_steps.old + length plan.new) }
    ensures coef_steps { Spends coef_steps.old coef_steps.new 1 }
{
    let factor = matrix.get(row, column);
    if factor == Gf::ZERO {
        return Ok(());
    }
    let _byte = factor.byte();
    plan.push(Op::AddScaled {
        dst: row,
        src: pivot,
        factor,
    })?;
    matrix.axpy(row, factor, pivot, coef_steps);
    Ok(())
}

// Makes rows 0 in a column where the pivot row, which is none of them, is 1.
fn clear_rows<C: Ledger>(
    matrix: &mut Matrix,
    plan: &mut Plan,
    pivot: u32,
    column: u32,
    rows: &[u32],
    coef_steps: &mut Steps<C>,
) -> Result<(), AllocError>
    requires pivot { pivot < length matrix.old.rows }
    requires column { column < matrix.old.cols }
    requires rows { All (λ r. r < length matrix.old.rows) rows.now }
    requires apart { All (λ r. r ≢ pivot) rows.now }
    requires one { matrix_entry matrix.old pivot column ≡ 1 }
    ensures clears { OnOk result (Clears pivot column rows.now matrix.old matrix.new plan.old plan.new) }
    ensures counted { OnOk result (coef_steps.new + length plan.old ≡ coef_steps.old + length plan.new) }
    ensures coef_steps { Spends coef_steps.old coef_steps.new (length rows.now) }
{
    'clearing: for row in rows {
        clear_row(matrix, plan, pivot, column, *row, coef_steps)?;
    }
    Ok(())
}

// Makes a row 1 in a column where it isn't 0. It is at most one operation.
fn make_one<C: Ledger>(
    matrix: &mut Matrix,
    plan: &mut Plan,
    row: u32,
    column: u32,
    coef_steps: &mut Steps<C>,
) -> Result<(), AllocError>
    requires row { row < length matrix.old.rows }
    requires column { column < matrix.old.cols }
    requires entry { matrix_entry matrix.old row column ≢ 0 }
    ensures normalizes { OnOk result (Normalizes row column matrix.old matrix.new plan.old plan.new) }
    ensures counted { OnOk result (coef_steps.new + length plan.old ≡ coef_steps.old + length plan.new) }
    ensures coef_steps { Spends coef_steps.old coef_steps.new 1 }
{
    let entry = matrix.get(row, column);
    if entry == Gf::ONE {
        return Ok(());
    }
    let factor = entry.inv();
    let _byte = factor.byte();
    plan.push(Op::Scale { row, factor })?;
    matrix.scale(row, factor, coef_steps);
    Ok(())
}

// Makes the equation at a place 1 in a column where it isn't 0, and all other equations and the others 0 there.
pub(crate) fn clear_column<C: Ledger>(
    matrix: &mut Matrix,
    plan: &mut Plan,
    eqs: &[u32],
    others: &[u32],
    place: usize,
    column: u32,
    coef_steps: &mut Steps<C>,
) -> Result<(), AllocError>
    requires targets { AreTargets matrix.old eqs.now others.now }
    requires place { place < length eqs.now }
    requires column { column < matrix.old.cols }
    requires entry { matrix_entry matrix.old (slice_index eqs.now place) column ≢ 0 }
    ensures clears { OnOk result (ClearsColumn eqs.now others.now place column matrix.old matrix.new plan.old plan.new) }
    ensures counted { OnOk result (coef_steps.new + length plan.old ≡ coef_steps.old + length plan.new) }
    ensures coef_steps { Spends coef_steps.old coef_steps.new (length eqs.now + length others.now) }
{
    let pivot = eqs[place];
    make_one(matrix, plan, pivot, column, coef_steps)?;
    clear_rows(matrix, plan, pivot, column, &eqs[..place], coef_steps)?;
    clear_rows(matrix, plan, pivot, column, &eqs[place + 1..], coef_steps)?;
    clear_rows(matrix, plan, pivot, column, others, coef_steps)?;
    Ok(())
}
