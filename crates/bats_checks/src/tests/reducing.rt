ghost use Rattle.std.specs.Prelude.{◌≡◌, ◌<◌, All, IfOk, length};
ghost use Rattle.gf_rows.specs.Operation.{FitsRows};

use bats_dense::{Dense, reduce};
use bats_model::Nums;
use gf_core::Gf;
use gf_rows::{Matrix, Op, Plan, Steps};
use std::alloc::{AllocError, AllocGlobal, Global};
use std::marker::Brand;
use std::process::Abort;
use std::sync::ledger::{Blank, Ledger};
use std::test::Fail;

fn numbers(alloc: Global, items: &[u32]) -> Result<Nums, AllocError>
    ensures { IfOk result (λ numbers. numbers ≡ items.now) }
{
    let list: Vec<u32> = items.iter().copied().collect(alloc)?;
    Ok(Nums::from(list))
}

// Row 2 is 5 times row 0 and 7 times row 1.
fn five_rows(alloc: Global) -> Result<Matrix, AllocError>
    ensures rows { IfOk result (λ matrix. length matrix.rows ≡ 5) }
    ensures cols { IfOk result (λ matrix. matrix.cols ≡ 4) }
{
    let mut matrix = Matrix::zeros(alloc, 5, 4)?;
    matrix.set_row(0, &[0, 2, 4, 0x80]);
    matrix.set_row(1, &[3, 0, 0, 1]);
    matrix.set_row(2, &[9, 10, 20, 0xBD]);
    matrix.set_row(3, &[9, 8, 7, 6]);
    matrix.set_row(4, &[1, 2, 3, 4]);
    Ok(matrix)
}

// A plan that scales row 4.
fn plan_before(alloc: Global) -> Result<Plan, AllocError>
    ensures { IfOk result (All (FitsRows 5)) }
{
    let mut plan = Plan::new(alloc);
    plan.push(Op::Scale {
        row: 4,
        factor: Gf::new(9),
    })?;
    Ok(plan)
}

fn reduce_five_rows<L: Ledger>(alloc: Global, steps: &mut Steps<L>) -> Result<Dense, AllocError> {
    let matrix = five_rows(alloc)?;
    let eqs = numbers(alloc, &[0, 2, 1])?;
    let others = numbers(alloc, &[3])?;
    let plan = plan_before(alloc)?;
    Ok(reduce(alloc, matrix, eqs, others, plan, steps)?)
}

fn row_is(matrix: &Matrix, r: u32, bytes: &[u8]) -> bool {
    r < matrix.rows() && matrix.row(r) == bytes
}

fn begins_with_scaling(plan: &Plan) -> bool {
    let scaling = Op::Scale {
        row: 4,
        factor: Gf::new(9),
    };
    0 < plan.len() && plan.get(0) == scaling
}

fn five_rows_are_reduced<L: Ledger, R: Abort + AllocGlobal>(
    rt: &R,
    blank: Blank,
) -> Result<(), Fail>
    requires name { blank.name ≡ L.name }
    requires parts { blank.parts ≡ L.parts }
    requires some { 0 < blank.parts }
{
    let mut steps: Steps<L> = Steps::new(blank);
    let dense = reduce_five_rows(rt.alloc(), &mut steps)?;
    assert_eq!(rt; dense.pivot_rows.as_slice(), [2, 0].as_slice());
    assert_eq!(rt; dense.pivot_columns.as_slice(), [0, 1].as_slice());
    assert_eq!(rt; dense.free.as_slice(), [2, 3].as_slice());
    assert_eq!(rt; dense.zero_rows.as_slice(), [1].as_slice());
    assert!(rt; row_is(&dense.matrix, 2, &[1, 0, 0, 0xF4]));
    assert!(rt; row_is(&dense.matrix, 0, &[0, 1, 2, 0x40]));
    assert!(rt; row_is(&dense.matrix, 1, &[0, 0, 0, 0]));
    assert!(rt; row_is(&dense.matrix, 3, &[0, 0, 0x17, 0x3B]));
    assert!(rt; row_is(&dense.matrix, 4, &[1, 2, 3, 4]));
    assert_eq!(rt; dense.plan.len(), 8);
    assert!(rt; begins_with_scaling(&dense.plan));
    Ok(())
}

#[test]
fn reduces_five_rows(rt: HostRuntime) -> Result<(), Fail> {
    five_rows_are_reduced::<Brand, HostRuntime>(&rt, Blank::new(1))
}

fn reduce_no_columns<L: Ledger>(alloc: Global, steps: &mut Steps<L>) -> Result<Dense, AllocError> {
    let matrix = Matrix::zeros(alloc, 2, 0)?;
    let eqs = numbers(alloc, &[1, 0])?;
    let others = Nums::new(alloc);
    let plan = Plan::new(alloc);
    Ok(reduce(alloc, matrix, eqs, others, plan, steps)?)
}

fn no_columns_are_reduced<L: Ledger, R: Abort + AllocGlobal>(
    rt: &R,
    blank: Blank,
) -> Result<(), Fail>
    requires name { blank.name ≡ L.name }
    requires parts { blank.parts ≡ L.parts }
    requires some { 0 < blank.parts }
{
    let mut steps: Steps<L> = Steps::new(blank);
    let dense = reduce_no_columns(rt.alloc(), &mut steps)?;
    assert_eq!(rt; dense.pivot_rows.len(), 0);
    assert_eq!(rt; dense.free.len(), 0);
    assert_eq!(rt; dense.zero_rows.as_slice(), [1, 0].as_slice());
    assert!(rt; dense.plan.is_empty());
    Ok(())
}

#[test]
fn rows_without_columns_are_zero_rows(rt: HostRuntime) -> Result<(), Fail> {
    no_columns_are_reduced::<Brand, HostRuntime>(&rt, Blank::new(1))
}
