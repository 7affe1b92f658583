//! Row operations on the matrix over the inactive symbols, each of which is appended to the plan.
ghost use Rattle.std.specs.Prelude.{◌≡◌, ◌≢◌, ◌<◌, ◌≤◌, ◌+◌, ◌*◌, true, List, All, OnOk, length, slice_index, if◌then◌else◌};
ghost use Rattle.gf_core.specs.Field.{gf_add, gf_mul};
ghost use Rattle.gf_rows.specs.declared.operation.Op.{Op};
ghost use Rattle.gf_rows.specs.Matrix.{IsMatrix};
ghost use Rattle.gf_rows.specs.Operation.{IsRowOperation, FitsRows, op_on_column};
ghost use Rattle.gf_rows.specs.Plan.{plan_on_column};
ghost use Rattle.bats_model.specs.Batch.{degree_of};
ghost use Rattle.bats_batch.specs.Held.{max_kept};
ghost use Rattle.bats_peel.specs.steps.Fixing.{IsLocal};
ghost use Rattle.bats_peel.specs.steps.Parts.{part, place_value, segment, Sets, Changes, IsApart, ArePlacesApart, ArePlacesBeyond, known_term, with_terms, known_count};

use crate::local::Local;
use crate::peeled::Place;
use gf_core::Gf;
use gf_rows::{Matrix, Op, Plan, Steps};
use std::alloc::AllocError;
use std::sync::ledger::Ledger;

// Adds a multiple of row `src` to another row.
fn add_row<C: Ledger>(
    matrix: &mut Matrix,
    plan: &mut Plan,
    row: u32,
    factor: Gf,
    src: u32,
    coef_steps: &mut Steps<C>,
) -> Result<(), AllocError>
    requires matrix { IsMatrix matrix.old }
    requires row { row < length matrix.old.rows }
    requires src { src < length matrix.old.rows }
    requires apart { row ≢ src }
    ensures sets { OnOk result (Sets row matrix.old matrix.new plan.old plan.new
        (λ column values. gf_add (part matrix.old plan.old column values row) (gf_mul factor (part matrix.old plan.old column values src)))) }
    ensures count { OnOk result (length plan.new ≡ length plan.old + 1) }
    ensures coef_steps_rise { coef_steps.old ≤ coef_steps.new }
{
    let _byte = factor.byte();
    plan.push(Op::AddScaled {
        dst: row,
        src,
        factor,
    })?;
    matrix.axpy(row, factor, src, coef_steps);
    Ok(())
}

// Makes a row a multiple of itself.
fn scale_row<C: Ledger>(
    matrix: &mut Matrix,
    plan: &mut Plan,
    row: u32,
    factor: Gf,
    coef_steps: &mut Steps<C>,
) -> Result<(), AllocError>
    requires matrix { IsMatrix matrix.old }
    requires row { row < length matrix.old.rows }
    requires factor { factor ≢ 0 }
    ensures sets { OnOk result (Sets row matrix.old matrix.new plan.old plan.new
        (λ column values. gf_mul factor (part matrix.old plan.old column values row))) }
    ensures count { OnOk result (length plan.new ≡ length plan.old + 1) }
    ensures coef_steps_rise { coef_steps.old ≤ coef_steps.new }
{
    let _byte = factor.byte();
    plan.push(Op::Scale { row, factor })?;
    matrix.scale(row, factor, coef_steps);
    Ok(())
}

// Adds to an entry of the matrix, which changes no payload.
fn add_entry(matrix: &mut Matrix, row: u32, column: u32, factor: Gf)
    requires matrix { IsMatrix matrix.old }
    requires row { row < length matrix.old.rows }
    requires column { column < matrix.old.cols }
    ensures { (plan : List Op) → Sets row matrix.old matrix.new plan plan
        (λ bytes values. gf_add (part matrix.old plan bytes values row) (gf_mul factor (values column))) }
{
    let entry = matrix.get(row, column).add(factor);
    matrix.set(row, column, entry);
}

// Adds to a row the multiple of a symbol at a place, if the symbol is known.
fn take_term<C: Ledger>(
    matrix: &mut Matrix,
    plan: &mut Plan,
    row: u32,
    factor: Gf,
    place: Place,
    known: bool,
    coef_steps: &mut Steps<C>,
) -> Result<(), AllocError>
    requires matrix { IsMatrix matrix.old }
    requires row { row < length matrix.old.rows }
    requires apart { known ≡ true → IsApart matrix.old row place }
    ensures sets { OnOk result (Sets row matrix.old matrix.new plan.old plan.new
        (λ column values. gf_add (part matrix.old plan.old column values row)
        (known_term known factor (place_value matrix.old plan.old column values place)))) }
    ensures count { OnOk result (length plan.new ≤ length plan.old + (if known then 1 else 0)) }
    ensures coef_steps_rise { coef_steps.old ≤ coef_steps.new }
{
    if !known {
        return Ok(());
    }
    if factor == Gf::ZERO {
        return Ok(());
    }
    match place {
        Place::Row(src) => add_row(matrix, plan, row, factor, src, coef_steps),
        Place::Column(j) => {
            add_entry(matrix, row, j, factor);
            Ok(())
        }
    }
}

// Adds to a row of the payload the terms of all known contributors in row `i` of a batch.
fn take_terms<C: Ledger>(
    matrix: &mut Matrix,
    plan: &mut Plan,
    row: u32,
    local: &Local,
    i: u32,
    places: &[Place],
    known: &[bool],
    coef_steps: &mut Steps<C>,
) -> Result<(), AllocError>
    requires matrix { IsMatrix matrix.old }
    requires row { row < length matrix.old.rows }
    requires local { IsLocal (length places.now) local.now }
    requires known { length known.now ≡ length places.now }
    requires i { i < length local.now.matrix.rows }
    requires apart { ArePlacesApart matrix.old row places.now known.now }
    ensures sets { OnOk result (Sets row matrix.old matrix.new plan.old plan.new
        (with_terms (degree_of local.now.batch) local.now row i places.now known.now matrix.old plan.old)) }
    ensures count { OnOk result (length plan.new ≤ length plan.old + known_count local.now known.now (degree_of local.now.batch)) }
    ensures coef_steps_rise { coef_steps.old ≤ coef_steps.new }
{
    'terms: for k in 0..local.batch.degree() {
        let s = local.batch.contributor(k) as usize;
        let factor = local.matrix.get(i, k);
        take_term(matrix, plan, row, factor, places[s], known[s], coef_steps)?;
    }
    Ok(())
}

/// Adds to each row of a batch the terms of its known contributors, which leaves those of the others.
pub(crate) fn substitute_rows<C: Ledger>(
    matrix: &mut Matrix,
    plan: &mut Plan,
    local: &Local,
    places: &[Place],
    known: &[bool],
    coef_steps: &mut Steps<C>,
) -> Result<(), AllocError>
    requires matrix { IsMatrix matrix.old }
    requires rows { local.now.first + length local.now.matrix.rows ≤ length matrix.old.rows }
    requires limit { length matrix.old.rows ≤ max_kept }
    requires local { IsLocal (length places.now) local.now }
    requires known { length known.now ≡ length places.now }
    requires beyond { ArePlacesBeyond matrix.old local.now.first (length local.now.matrix.rows) places.now known.now }
    ensures changes { OnOk result (Changes local.now.first (length local.now.matrix.rows) matrix.old matrix.new plan.old plan.new
        (λ column values i. with_terms (degree_of local.now.batch) local.now (local.now.first + i) i places.now known.now
        matrix.old plan.old column values)) }
    ensures count { OnOk result (length plan.new ≤ length plan.old
        + length local.now.matrix.rows * known_count local.now known.now (degree_of local.now.batch)) }
    ensures coef_steps_rise { coef_steps.old ≤ coef_steps.new }
{
    'rows: for i in 0..local.matrix.rows() {
        take_terms(
            matrix,
            plan,
            local.first + i,
            local,
            i,
            places,
            known,
            coef_steps,
        )?;
    }
    Ok(())
}

// Does an operation of a batch's own rows, so many from `first` on.
fn replay_op<C: Ledger>(
    matrix: &mut Matrix,
    plan: &mut Plan,
    first: u32,
    count: u32,
    op: Op,
    coef_steps: &mut Steps<C>,
) -> Result<(), AllocError>
    requires matrix { IsMatrix matrix.old }
    requires fits { FitsRows count op }
    requires rule { IsRowOperation op }
    requires rows { first + count ≤ length matrix.old.rows }
    requires limit { length matrix.old.rows ≤ max_kept }
    ensures changes { OnOk result (Changes first count matrix.old matrix.new plan.old plan.new
        (λ column values i. slice_index (op_on_column (segment matrix.old plan.old column values first count) op) i)) }
    ensures count { OnOk result (length plan.new ≡ length plan.old + 1) }
    ensures coef_steps_rise { coef_steps.old ≤ coef_steps.new }
{
    match op {
        Op::AddScaled { dst, src, factor } => {
            add_row(matrix, plan, first + dst, factor, first + src, coef_steps)
        }
        Op::Scale { row, factor } => scale_row(matrix, plan, first + row, factor, coef_steps),
    }
}

/// Does the operations of a batch's own rows, so many from `first` on.
pub(crate) fn replay<C: Ledger>(
    matrix: &mut Matrix,
    plan: &mut Plan,
    first: u32,
    count: u32,
    ops: &Plan,
    coef_steps: &mut Steps<C>,
) -> Result<(), AllocError>
    requires matrix { IsMatrix matrix.old }
    requires fits { All (FitsRows count) ops.now }
    requires rows { first + count ≤ length matrix.old.rows }
    requires limit { length matrix.old.rows ≤ max_kept }
    ensures changes { OnOk result (Changes first count matrix.old matrix.new plan.old plan.new
        (λ column values i. slice_index (plan_on_column ops.now (segment matrix.old plan.old column values first count)) i)) }
    ensures count { OnOk result (length plan.new ≡ length plan.old + length ops.now) }
    ensures coef_steps_rise { coef_steps.old ≤ coef_steps.new }
{
    'ops: for i in 0..ops.len() {
        replay_op(matrix, plan, first, count, ops.get(i), coef_steps)?;
    }
    Ok(())
}
