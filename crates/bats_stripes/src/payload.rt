ghost use Rattle.std.specs.Prelude.{◌≡◌, ◌+◌, ◌<◌, ◌≤◌, ◌↔◌, All, IfOk, IsTrue, length, replicate};
ghost use Rattle.gf_rows.specs.Matrix.{matrix_entry, matrix_row, with_matrix_row};
ghost use Rattle.gf_rows.specs.Operation.{FitsRows};
ghost use Rattle.bats_stripes.specs.Columns.{IsReplayed, IsZeroRow};

use crate::gate::Gate;
use crate::layout::Layout;
use crate::pieces;
use crate::stripes::run_stripes;
use gf_rows::{Plan, Steps};
use std::alloc::{AllocError, Global};
use std::marker::Model;
use std::sync::ledger::Ledger;
use std::thread::Threads;

/// Rows of payload bytes, in one buffer that is cut into stripes of columns, a stripe for each worker.
#[derive(Debug, Drop)]
pub struct Payload {
    layout: Layout,
    bytes: Vec<u8>,
}

impl Model for Payload {
    ghost use Rattle.std.specs.Prelude.{◌≤◌, vec_len};
    ghost use Rattle.gf_rows.specs.Matrix.{Grid};
    ghost use Rattle.bats_stripes.specs.Layout.{striped_rows};
    ghost use Rattle.bats_stripes.specs.steps.Stripes.{IsStriped};

    ghost Value = { Grid };

    ghost view = { λ p. record { cols = p.layout.cols; rows = striped_rows p.layout.rows p.layout.cols p.layout.width p.layout.stride p.bytes.items } };

    ghost invariant = { λ p. IsStriped p.layout.rows p.layout.cols p.layout.width p.layout.stride p.layout.stripes (vec_len p.bytes)
        × (p.layout.stripes ≤ 64) × (p.layout.stride ≤ 2080) };
}

impl Payload {
    /// Rows of zeros, each as many bytes as `width` says, 1 to 2,048, to be worked on by 1 to 64 workers.
    pub fn zeros(alloc: Global, rows: u32, width: u16, workers: u32) -> Result<Payload, AllocError>
        requires some { 0 < width }
        requires width { width ≤ 2048 }
        requires busy { 0 < workers }
        requires workers { workers ≤ 64 }
        ensures { IfOk result (λ p. p ≡ record { cols = width; rows = replicate rows (replicate width 0) }) }
    {
        let layout = Layout::of(rows, u32::from(width), workers);
        let stripe = rows as usize * layout.stride as usize;
        let bytes = vec![in alloc; 0; layout.stripes as usize * stripe]?;
        Ok(Payload { layout, bytes })
    }

    /// The number of rows.
    pub fn rows(&self) -> u32
        ensures { result ≡ length self.now.rows }
    {
        self.layout.rows
    }

    /// The number of columns, that is, of bytes in a row.
    pub fn cols(&self) -> u32
        ensures { result ≡ self.now.cols }
    {
        self.layout.cols
    }

    /// Byte `c` of row `r`.
    pub fn byte(&self, r: u32, c: u32) -> u8
        requires row { r < length self.now.rows }
        requires column { c < self.now.cols }
        ensures { result ≡ matrix_entry self.now r c }
    {
        let width = self.layout.width;
        let row = (c / width) as usize * self.layout.rows as usize + r as usize;
        self.bytes[row * self.layout.stride as usize + (c % width) as usize]
    }

    /// Writes row `r`, which has a byte for each column.
    pub fn put_row(&mut self, r: u32, bytes: &[u8])
        requires row { r < length self.old.rows }
        requires width { length bytes.now ≡ self.old.cols }
        ensures { self.new ≡ with_matrix_row self.old r bytes.now }
    {
        pieces::put_row(self.bytes.as_mut_slice(), self.layout, r, bytes);
    }

    /// Makes `dst`, which has a byte for each column, row `r`.
    pub fn copy_row_to(&self, r: u32, dst: &mut [u8])
        requires row { r < length self.now.rows }
        requires width { length dst.old ≡ self.now.cols }
        ensures { dst.new ≡ matrix_row self.now r }
    {
        pieces::copy_row(self.bytes.as_slice(), self.layout, r, dst);
    }

    /// Whether every byte of row `r` is 0.
    pub fn row_is_zero(&self, r: u32) -> bool
        requires { r < length self.now.rows }
        ensures { IsTrue result ↔ IsZeroRow self.now r }
    {
        pieces::row_is_zero(self.bytes.as_slice(), self.layout, r)
    }

    /// Runs the plan on every row, and counts a step for each operation. Each stripe has a worker, which passes the gate and
    /// then runs the whole plan on it. Without rows no worker is called.
    pub fn replay<R: Threads + Sync, G: Gate, L: Ledger>(
        &mut self,
        rt: &R,
        plan: &Plan,
        gate: &G,
        steps: &mut Steps<L>,
    )
        requires { All (FitsRows (length self.old.rows)) plan.now }
        ensures replayed { IsReplayed plan.now self.old self.new }
        ensures counted { steps.new ≡ steps.old + length plan.now }
    {
        count(steps, plan.len());
        if self.layout.rows == 0 {
            return;
        }
        run_stripes(
            rt,
            self.bytes.as_mut_slice(),
            self.layout.rows,
            self.layout.stride as usize,
            plan,
            gate,
        );
    }
}

// Counts as many steps.
fn count<L: Ledger>(steps: &mut Steps<L>, number: usize)
    ensures { steps.new ≡ steps.old + number }
{
    'steps: for i in 0..number {
        steps.tick();
    }
}
