//! The reduction, column by column.
ghost use Rattle.std.specs.Prelude.{ℕ, ◌≡◌, ◌+◌, ◌*◌, ◌<◌, ◌≤◌, false, All, OnOk, MatchOption, length, slice_index};
ghost use Rattle.gf_rows.specs.Matrix.{matrix_entry};
ghost use Rattle.gf_rows.specs.Performed.{Performed};
ghost use Rattle.gf_rows.specs.Spends.{Spends};
ghost use Rattle.bats_dense.specs.Reduced.{AreTargets};
ghost use Rattle.bats_dense.specs.Kept.{KeepsOutside};
ghost use Rattle.bats_dense.specs.steps.Below.{is_used, IsPivotPlace, IsProgressBelow};

use crate::rows::clear_column;
use bats_model::Nums;
use gf_core::Gf;
use gf_rows::{Matrix, Plan, Steps};
use std::alloc::AllocError;
use std::sync::ledger::Ledger;

// What the reduction has come to: the matrix and the plan so far, which equations have a pivot, by their places, and the
// columns that were gone through.
#[derive(Drop)]
pub(crate) struct Progress {
    pub(crate) matrix: Matrix,
    pub(crate) plan: Plan,
    pub(crate) used: Vec<bool>,
    pub(crate) pivot_rows: Nums,
    pub(crate) pivot_columns: Nums,
    pub(crate) free: Nums,
}

// The first place of an equation that has no pivot and isn't 0 in this column.
fn find_pivot(matrix: &Matrix, eqs: &[u32], used: &[bool], column: u32) -> Option<usize>
    requires rows { All (λ r. r < length matrix.now.rows) eqs.now }
    requires places { length used.now ≡ length eqs.now }
    requires column { column < matrix.now.cols }
    ensures { MatchOption result
        ((k : ℕ) → k < length eqs.now → is_used used.now k ≡ false
        → matrix_entry matrix.now (slice_index eqs.now k) column ≡ 0)
        (IsPivotPlace matrix.now eqs.now used.now column) }
{
    'search: for (place, row) in eqs.iter().enumerate() {
        if !used[place] && matrix.get(*row, column) != Gf::ZERO {
            return Some(place);
        }
    }
    None
}

// Goes through one more column: an equation that has no pivot gets one there, or the column is free.
fn reduce_column<C: Ledger>(
    progress: &mut Progress,
    eqs: &[u32],
    others: &[u32],
    column: u32,
    coef_steps: &mut Steps<C>,
) -> Result<(), AllocError>
    requires targets { AreTargets progress.old.matrix eqs.now others.now }
    requires column { column < progress.old.matrix.cols }
    requires below { IsProgressBelow column eqs.now others.now progress.old }
    ensures below { OnOk result (IsProgressBelow (column + 1) eqs.now others.now progress.new) }
    ensures performed { OnOk result (Performed eqs.now progress.old.matrix progress.new.matrix
        progress.old.plan progress.new.plan) }
    ensures outside { OnOk result (KeepsOutside eqs.now others.now progress.old.matrix progress.new.matrix) }
    ensures counted { OnOk result (coef_steps.new + length progress.old.plan
        ≡ coef_steps.old + length progress.new.plan) }
    ensures coef_steps { Spends coef_steps.old coef_steps.new (length eqs.now + length others.now) }
{
    let Some(place) = find_pivot(&progress.matrix, eqs, &progress.used, column) else {
        progress.free.push(column)?;
        return Ok(());
    };
    clear_column(
        &mut progress.matrix,
        &mut progress.plan,
        eqs,
        others,
        place,
        column,
        coef_steps,
    )?;
    progress.used[place] = true;
    progress.pivot_rows.push(eqs[place])?;
    progress.pivot_columns.push(column)?;
    Ok(())
}

// Goes through all columns.
pub(crate) fn reduce_columns<C: Ledger>(
    progress: &mut Progress,
    eqs: &[u32],
    others: &[u32],
    coef_steps: &mut Steps<C>,
) -> Result<(), AllocError>
    requires targets { AreTargets progress.old.matrix eqs.now others.now }
    requires below { IsProgressBelow 0 eqs.now others.now progress.old }
    ensures below { OnOk result (IsProgressBelow progress.new.matrix.cols eqs.now others.now progress.new) }
    ensures performed { OnOk result (Performed eqs.now progress.old.matrix progress.new.matrix
        progress.old.plan progress.new.plan) }
    ensures outside { OnOk result (KeepsOutside eqs.now others.now progress.old.matrix progress.new.matrix) }
    ensures counted { OnOk result (coef_steps.new + length progress.old.plan
        ≡ coef_steps.old + length progress.new.plan) }
    ensures coef_steps { Spends coef_steps.old coef_steps.new ((length eqs.now + length others.now) * progress.old.matrix.cols) }
{
    'columns: for column in 0..progress.matrix.cols() {
        reduce_column(progress, eqs, others, column, coef_steps)?;
    }
    Ok(())
}
