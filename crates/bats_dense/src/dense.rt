//! The reduction and its result.
ghost use Rattle.std.specs.Prelude.{◌≡◌, ◌≢◌, ◌+◌, ◌*◌, ◌≤◌, All, AllPairs, IfOk, length};
ghost use Rattle.gf_rows.specs.Operation.{FitsRows};
ghost use Rattle.gf_rows.specs.Performed.{Performed};
ghost use Rattle.gf_rows.specs.Spends.{Spends};
ghost use Rattle.bats_dense.specs.Reduced.{AreTargets, IsReduced};
ghost use Rattle.bats_dense.specs.Kept.{KeepsOutside, KeepsSolutions};
ghost use Rattle.bats_dense.specs.steps.Below.{AreUnused};

use crate::progress::{Progress, reduce_columns};
use bats_model::Nums;
use gf_rows::{Matrix, Plan, Steps};
use std::alloc::{AllocError, Global};
use std::sync::ledger::Ledger;

/// A matrix whose equations, which are some of its rows, are in reduced form. A pivot row is 1 at its own pivot column,
/// and 0 at every other pivot column and left of its own, so that a row whose pivot is the last column is 0 elsewhere.
#[derive(Drop)]
pub struct Dense {
    /// The matrix, with as many rows and columns as before.
    pub matrix: Matrix,
    /// The plan that was handed in, followed by the operations that made this matrix.
    pub plan: Plan,
    /// The equations that have a pivot, in the order of their columns.
    pub pivot_rows: Nums,
    /// The pivot column of each pivot row, rising.
    pub pivot_columns: Nums,
    /// The other columns, rising.
    pub free: Nums,
    /// The equations that are 0 in every column.
    pub zero_rows: Nums,
}

// The equations that have no pivot.
fn unused_rows(alloc: Global, eqs: &[u32], used: &[bool]) -> Result<Nums, AllocError>
    requires places { length used.now ≡ length eqs.now }
    requires distinct { AllPairs (λ a b. a ≢ b) eqs.now }
    ensures { IfOk result (AreUnused (length eqs.now) eqs.now used.now) }
{
    let mut rows = Nums::new(alloc);
    'places: for (place, row) in eqs.iter().enumerate() {
        if !used[place] {
            rows.push(*row)?;
        }
    }
    Ok(rows)
}

/// Brings the equations, the rows `eqs` of the matrix, to reduced form, with pivots by rising column, and makes the rows
/// `others` 0 at the pivot columns. The equations are distinct rows and none of the others, and the plan fits the rows.
/// Rows that are neither stay as they are.
///
/// Each operation on the matrix is appended to the plan, so that the solutions stay the same for every column of bytes
/// on which the plan is run. Each is one step, and for each column of the matrix there are at most as many as there are
/// equations and others together. An `Err` is want of memory, and drops what was handed in.
pub fn reduce<C: Ledger>(
    alloc: Global,
    matrix: Matrix,
    eqs: Nums,
    others: Nums,
    plan: Plan,
    coef_steps: &mut Steps<C>,
) -> Result<Dense, AllocError>
    requires targets { AreTargets matrix eqs others }
    requires plan { All (FitsRows (length matrix.rows)) plan }
    ensures reduced { IfOk result (IsReduced eqs others) }
    ensures performed { IfOk result (λ dense. Performed eqs matrix dense.matrix plan dense.plan) }
    ensures outside { IfOk result (λ dense. KeepsOutside eqs others matrix dense.matrix) }
    ensures solutions { IfOk result (λ dense. KeepsSolutions eqs matrix dense.matrix plan dense.plan) }
    ensures fits { IfOk result (λ dense. All (FitsRows (length dense.matrix.rows)) dense.plan) }
    ensures counted { IfOk result (λ dense. coef_steps.new + length plan ≡ coef_steps.old + length dense.plan) }
    ensures coef_steps { Spends coef_steps.old coef_steps.new ((length eqs + length others) * matrix.cols) }
{
    let _rows = matrix.rows();
    let used = vec![in alloc; false; eqs.len()]?;
    let mut progress = Progress {
        matrix,
        plan,
        used,
        pivot_rows: Nums::new(alloc),
        pivot_columns: Nums::new(alloc),
        free: Nums::new(alloc),
    };
    reduce_columns(&mut progress, eqs.as_slice(), others.as_slice(), coef_steps)?;
    let zero_rows = unused_rows(alloc, eqs.as_slice(), &progress.used)?;
    Ok(Dense {
        matrix: progress.matrix,
        plan: progress.plan,
        pivot_rows: progress.pivot_rows,
        pivot_columns: progress.pivot_columns,
        free: progress.free,
        zero_rows,
    })
}
