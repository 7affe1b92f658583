//! Payload rows in stripes: rows that are cut in two, workers that meet, and numbers at their limits. Helpers test what the
//! calls require, so that they require nothing.
ghost use Rattle.std.specs.Prelude.{◌≡◌, ◌<◌, ◌≤◌};

use bats_stripes::{Gate, OpenGate, Payload};
use gf_core::Gf;
use gf_rows::{Op, Plan, Steps};
use std::alloc::{AllocGlobal, Global};
use std::marker::Brand;
use std::process::Abort;
use std::sync::atomic::{AtomicBool, Ordering};
use std::sync::ledger::{Blank, Ledger};
use std::test::Fail;
use std::thread;
use std::thread::Threads;

// Writes row `r`.
fn put(payload: &mut Payload, r: u32, bytes: &[u8]) -> Result<(), Fail> {
    if r >= payload.rows() {
        return Err(Fail::new("no such row"));
    }
    if bytes.len() != payload.cols() as usize {
        return Err(Fail::new("a row of another width"));
    }
    payload.put_row(r, bytes);
    Ok(())
}

// Copies row `r` to `dst`.
fn copy(payload: &Payload, r: u32, dst: &mut [u8]) -> Result<(), Fail> {
    if r >= payload.rows() {
        return Err(Fail::new("no such row"));
    }
    if dst.len() != payload.cols() as usize {
        return Err(Fail::new("a row of another width"));
    }
    payload.copy_row_to(r, dst);
    Ok(())
}

// Whether row `r` has these bytes, read one by one, and is zero exactly where they are.
fn row_is(payload: &Payload, r: u32, bytes: &[u8]) -> bool {
    if r >= payload.rows() || bytes.len() != payload.cols() as usize {
        return false;
    }
    for c in 0..payload.cols() {
        if payload.byte(r, c) != bytes[c as usize] {
            return false;
        }
    }
    payload.row_is_zero(r) == bytes.iter().all(|byte| *byte == 0)
}

// Runs the plan on the rows.
fn run<R: Threads + Sync, G: Gate, L: Ledger>(
    rt: &R,
    payload: &mut Payload,
    plan: &Plan,
    gate: &G,
    steps: &mut Steps<L>,
) -> Result<(), Fail> {
    if !plan.fits(payload.rows()) {
        return Err(Fail::new("the plan doesn't fit"));
    }
    payload.replay(rt, plan, gate, steps);
    Ok(())
}

// Adds row 1 to row 0, and doubles row 1.
fn sum_and_double(alloc: Global) -> Result<Plan, Fail> {
    let mut plan = Plan::new(alloc);
    plan.push(Op::AddScaled {
        dst: 0,
        src: 1,
        factor: Gf::new(1),
    })?;
    plan.push(Op::Scale {
        row: 1,
        factor: Gf::new(2),
    })?;
    Ok(plan)
}

// Two rows of five columns, by this many workers.
fn two_rows<R: Threads + Sync + AllocGlobal + Abort, L: Ledger>(
    rt: &R,
    workers: u32,
    steps: &mut Steps<L>,
) -> Result<(), Fail>
    requires busy { 0 < workers }
    requires workers { workers ≤ 64 }
{
    let mut payload = Payload::zeros(rt.alloc(), 2, 5, workers)?;
    put(&mut payload, 0, &[1, 2, 3, 4, 5])?;
    put(&mut payload, 1, &[0x10, 0x20, 0x30, 0x40, 0x50])?;
    let plan = sum_and_double(rt.alloc())?;
    run(rt, &mut payload, &plan, &OpenGate, steps)?;
    assert!(rt; row_is(&payload, 0, &[0x11, 0x22, 0x33, 0x44, 0x55]));
    assert!(rt; row_is(&payload, 1, &[0x20, 0x40, 0x60, 0x80, 0xA0]));
    let mut row = [0; 5];
    copy(&payload, 1, &mut row)?;
    assert_eq!(rt; row, [0x20, 0x40, 0x60, 0x80, 0xA0]);
    put(&mut payload, 0, &[0, 0, 0, 0, 0])?;
    assert!(rt; row_is(&payload, 0, &[0, 0, 0, 0, 0]));
    assert!(rt; row_is(&payload, 1, &[0x20, 0x40, 0x60, 0x80, 0xA0]));
    is_send_and_sync(payload);
    Ok(())
}

fn is_send_and_sync<T: Send + Sync + Drop>(_value: T) {}

fn two_rows_each<R: Threads + Sync + AllocGlobal + Abort, L: Ledger>(
    rt: &R,
    blank: Blank,
) -> Result<(), Fail>
    requires name { blank.name ≡ L.name }
    requires parts { blank.parts ≡ L.parts }
    requires some { 0 < blank.parts }
{
    let mut steps = Steps::<L>::new(blank);
    two_rows(rt, 1, &mut steps)?;
    two_rows(rt, 2, &mut steps)?;
    two_rows(rt, 3, &mut steps)?;
    two_rows(rt, 64, &mut steps)
}

// With two workers the stripes have three columns and two.
#[test]
fn runs_a_plan_on_two_rows(rt: HostRuntime) -> Result<(), Fail> {
    two_rows_each::<HostRuntime, Brand>(&rt, Blank::new(1))
}

// How often a worker looks for the other.
const MOST_TURNS: u32 = 20_000_000;

// A gate at which each of two workers waits for the other, but not for ever.
#[derive(Drop)]
struct Meeting {
    first_is_here: AtomicBool,
    second_is_here: AtomicBool,
    first_saw: AtomicBool,
    second_saw: AtomicBool,
}

impl Meeting {
    fn new() -> Meeting {
        Meeting {
            first_is_here: AtomicBool::new(false),
            second_is_here: AtomicBool::new(false),
            first_saw: AtomicBool::new(false),
            second_saw: AtomicBool::new(false),
        }
    }
}

// Tells that a worker is here, and whether it saw the other.
fn meet(own: &AtomicBool, other: &AtomicBool, saw: &AtomicBool) {
    own.store(true, Ordering::SeqCst);
    for _ in 0..MOST_TURNS {
        if other.load(Ordering::SeqCst) {
            saw.store(true, Ordering::SeqCst);
            return;
        }
        thread::yield_now();
    }
}

impl Gate for Meeting {
    fn enter(&self, stripe: u32) {
        if stripe == 0 {
            meet(&self.first_is_here, &self.second_is_here, &self.first_saw);
        } else {
            meet(&self.second_is_here, &self.first_is_here, &self.second_saw);
        }
    }
}

// Two workers run one operation on rows of 64 columns.
fn two_meet<R: Threads + Sync + AllocGlobal + Abort, L: Ledger>(
    rt: &R,
    blank: Blank,
) -> Result<(), Fail>
    requires name { blank.name ≡ L.name }
    requires parts { blank.parts ≡ L.parts }
    requires some { 0 < blank.parts }
{
    let mut steps = Steps::<L>::new(blank);
    let mut payload = Payload::zeros(rt.alloc(), 2, 64, 2)?;
    let plan = sum_and_double(rt.alloc())?;
    let gate = Meeting::new();
    run(rt, &mut payload, &plan, &gate, &mut steps)?;
    assert!(rt; gate.first_saw.load(Ordering::SeqCst));
    assert!(rt; gate.second_saw.load(Ordering::SeqCst));
    Ok(())
}

// Each of two workers sees that the other is at work, so one thread for both doesn't do.
#[test]
fn two_workers_meet(rt: HostRuntime) -> Result<(), Fail> {
    two_meet::<HostRuntime, Brand>(&rt, Blank::new(1))
}

// Adds twice the first row to the last, where they are two.
fn first_to_last(alloc: Global, rows: u32) -> Result<Plan, Fail> {
    let mut plan = Plan::new(alloc);
    if rows > 1 {
        plan.push(Op::AddScaled {
            dst: rows - 1,
            src: 0,
            factor: Gf::new(2),
        })?;
    }
    Ok(plan)
}

// A row of 3s and a 1 at its end becomes a last row of 6s and a 2.
fn first_is_added<R: Threads + Sync + AllocGlobal + Abort, L: Ledger>(
    rt: &R,
    rows: u32,
    width: u16,
    workers: u32,
    steps: &mut Steps<L>,
) -> Result<(), Fail>
    requires column { 0 < width }
    requires columns { width ≤ 2048 }
    requires busy { 0 < workers }
    requires workers { workers ≤ 64 }
{
    let mut payload = Payload::zeros(rt.alloc(), rows, width, workers)?;
    let mut first = vec![in rt.alloc(); 3; usize::from(width)]?;
    first[usize::from(width) - 1] = 1;
    let mut last = vec![in rt.alloc(); 6; usize::from(width)]?;
    last[usize::from(width) - 1] = 2;
    if rows > 0 {
        put(&mut payload, 0, &first)?;
    }
    let plan = first_to_last(rt.alloc(), rows)?;
    run(rt, &mut payload, &plan, &OpenGate, steps)?;
    assert_eq!(rt; payload.rows(), rows);
    assert_eq!(rt; payload.cols(), u32::from(width));
    if rows > 0 {
        assert!(rt; row_is(&payload, 0, &first));
    }
    if rows > 1 {
        assert!(rt; row_is(&payload, rows - 1, &last));
    }
    Ok(())
}

fn first_is_added_each<R: Threads + Sync + AllocGlobal + Abort, L: Ledger>(
    rt: &R,
    blank: Blank,
) -> Result<(), Fail>
    requires name { blank.name ≡ L.name }
    requires parts { blank.parts ≡ L.parts }
    requires some { 0 < blank.parts }
{
    let mut steps = Steps::<L>::new(blank);
    first_is_added(rt, 8192, 2048, 64, &mut steps)?;
    first_is_added(rt, 8192, 2048, 1, &mut steps)?;
    first_is_added(rt, 8192, 2047, 63, &mut steps)?;
    first_is_added(rt, 2, 1, 64, &mut steps)?;
    first_is_added(rt, 1, 1, 1, &mut steps)?;
    first_is_added(rt, 0, 2048, 64, &mut steps)
}

#[test]
fn numbers_are_at_their_limits(rt: HostRuntime) -> Result<(), Fail> {
    first_is_added_each::<HostRuntime, Brand>(&rt, Blank::new(1))
}
