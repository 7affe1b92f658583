ghost use Rattle.std.specs.Prelude.{◌≡◌, ◌+◌, ◌≤◌, ◌<◌};

use gf_core::Gf;
use gf_rows::{Matrix, Op, Plan, Steps, axpy, dot, scale, scale_row};
use std::marker::Brand;
use std::process::Abort;
use std::sync::ledger::{Blank, Ledger};
use std::test::Fail;

#[test]
fn scales_a_row(rt: HostRuntime) {
    let mut row = [0x80, 3, 0, 1];
    scale_row(&mut row, Gf::new(2));
    assert_eq!(rt; row, [0x1D, 6, 0, 2]);
    scale_row(&mut row[..0], Gf::new(2));
    assert_eq!(rt; row, [0x1D, 6, 0, 2]);
}

#[test]
fn sums_products(rt: HostRuntime) {
    assert_eq!(rt; dot(&[], &[]), Gf::ZERO);
    assert_eq!(rt; dot(&[0x80, 3, 2], &[2, 3, 3]), Gf::new(0x1E));
}

// Takes 3 steps.
fn take_steps<L: Ledger, R: Abort>(rt: &R, steps: &mut Steps<L>)
    ensures { steps.new ≡ steps.old + 3 }
{
    let mut row = [0, 1];
    axpy(&mut row, Gf::new(3), &[3, 0], steps);
    assert_eq!(rt; row, [5, 1]);
    scale(&mut row, Gf::new(2), steps);
    assert_eq!(rt; row, [10, 2]);
    steps.tick();
}

fn count_steps<L: Ledger, R: Abort>(rt: &R, blank: Blank)
    requires name { blank.name ≡ L.name }
    requires parts { blank.parts ≡ L.parts }
    requires some { 0 < blank.parts }
{
    let mut steps: Steps<L> = Steps::new(blank);
    take_steps(rt, &mut steps);
}

#[test]
fn counts_steps(rt: HostRuntime) {
    count_steps::<Brand, HostRuntime>(&rt, Blank::new(1));
}

#[test]
fn keeps_operations(rt: HostRuntime) -> Result<(), Fail> {
    let sum = Op::AddScaled {
        dst: 4,
        src: 1,
        factor: Gf::new(7),
    };
    let scaling = Op::Scale {
        row: 2,
        factor: Gf::new(9),
    };
    let mut plan = Plan::new(rt.alloc());
    assert!(rt; plan.is_empty());
    assert!(rt; plan.fits(0));
    plan.push(sum)?;
    plan.push(scaling)?;
    assert_eq!(rt; plan.len(), 2);
    assert_eq!(rt; plan.get(0), sum);
    assert_eq!(rt; plan.get(1), scaling);
    assert!(rt; plan.fits(5));
    assert!(rt; !plan.fits(4));
    is_send_and_sync(plan);
    is_send_and_sync(sum);
    Ok(())
}

fn is_send_and_sync<T: Send + Sync + Drop>(_value: T) {}

fn change_matrix<L: Ledger, R: Abort + AllocGlobal>(rt: &R, blank: Blank) -> Result<(), Fail>
    requires name { blank.name ≡ L.name }
    requires parts { blank.parts ≡ L.parts }
    requires some { 0 < blank.parts }
{
    let mut steps: Steps<L> = Steps::new(blank);
    let mut matrix = Matrix::zeros(rt.alloc(), 3, 2)?;
    matrix.set(0, 0, Gf::new(0x80));
    matrix.set(2, 1, Gf::new(3));
    assert_eq!(rt; matrix.get(2, 1), Gf::new(3));
    assert_eq!(rt; matrix.get(1, 1), Gf::ZERO);
    matrix.axpy(1, Gf::new(2), 0, &mut steps);
    matrix.axpy(1, Gf::new(3), 2, &mut steps);
    matrix.scale(2, Gf::new(2), &mut steps);
    assert_eq!(rt; matrix.row(0), [0x80, 0].as_slice());
    assert_eq!(rt; matrix.row(1), [0x1D, 5].as_slice());
    assert_eq!(rt; matrix.row(2), [0, 6].as_slice());
    matrix.set_row(1, &[7, 0x80]);
    assert_eq!(rt; matrix.row(0), [0x80, 0].as_slice());
    assert_eq!(rt; matrix.row(1), [7, 0x80].as_slice());
    assert_eq!(rt; matrix.row(2), [0, 6].as_slice());
    Ok(())
}

#[test]
fn changes_rows_of_a_matrix(rt: HostRuntime) -> Result<(), Fail> {
    change_matrix::<Brand, HostRuntime>(&rt, Blank::new(1))
}

#[test]
fn makes_empty_matrices(rt: HostRuntime) -> Result<(), Fail> {
    let no_rows = Matrix::zeros(rt.alloc(), 0, 7)?;
    assert_eq!(rt; no_rows.rows(), 0);
    assert_eq!(rt; no_rows.cols(), 7);
    let mut no_columns = Matrix::zeros(rt.alloc(), 2, 0)?;
    assert_eq!(rt; no_columns.rows(), 2);
    assert_eq!(rt; no_columns.cols(), 0);
    no_columns.set_row(1, &[]);
    assert_eq!(rt; no_columns.row(1).len(), 0);
    Ok(())
}
