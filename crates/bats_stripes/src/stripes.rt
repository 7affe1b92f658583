//! A plan on all stripes, each by a worker of its own.
ghost use Rattle.std.specs.Prelude.{◌≡◌, ◌<◌, ◌≤◌, ◌*◌, ◌/◌, ◌%◌, All, length};
ghost use Rattle.gf_rows.specs.Matrix.{rows_of};
ghost use Rattle.gf_rows.specs.Operation.{FitsRows};
ghost use Rattle.gf_rows.specs.Plan.{plan_on_rows};
ghost use Rattle.bats_stripes.specs.steps.Stripes.{AreRun};

use crate::gate::Gate;
use crate::stripe;
use gf_rows::Plan;
use std::thread;
use std::thread::Threads;

/// Runs the whole plan on each stripe of a buffer of at most 64 stripes, by a worker for each.
pub(crate) fn run_stripes<R: Threads + Sync, G: Gate>(
    rt: &R,
    buffer: &mut [u8],
    rows: u32,
    stride: usize,
    plan: &Plan,
    gate: &G,
)
    requires some { 0 < rows }
    requires byte { 0 < stride }
    requires stride { stride ≤ 2080 }
    requires whole { length buffer.old % (rows * stride) ≡ 0 }
    requires stripes { length buffer.old ≤ 64 * (rows * stride) }
    requires fits { All (FitsRows rows) plan.now }
    ensures { AreRun plan.now rows stride buffer.old buffer.new }
{
    let size = rows as usize * stride;
    thread::for_each_chunk_mut(
        rt,
        buffer,
        size,
        &|start: usize, part: &mut [u8]|
            requires { (0 < size) × (start / size < 64) × (length part.old ≡ rows * stride) × (stride ≤ 2080) × All (FitsRows rows) plan.now }
            ensures { rows_of rows stride part.new ≡ plan_on_rows plan.entry.now (rows_of rows stride part.old) }
        {
            gate.enter((start / size) as u32);
            stripe::run(part, rows, stride, plan);
        },
    );
}
