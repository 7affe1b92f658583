ghost use Rattle.std.specs.Prelude.{◌≡◌, ◌≢◌, ◌+◌, ◌<◌, IfOk, length, replicate, slice_set};
ghost use Rattle.gf_rows.specs.Matrix.{IsMatrix, matrix_row, matrix_entry, with_matrix_row};
ghost use Rattle.gf_core.specs.Rows.{add_scaled_row, scaled_row};

use crate::inside::add_scaled_inside;
use crate::kernels;
use crate::steps::Steps;
use gf_core::Gf;
use std::alloc::{AllocError, Global};
use std::marker::Model;
use std::sync::ledger::Ledger;

/// A matrix over the field: rows of bytes, each as long as there are columns. The number of columns stands also
/// where there is no row.
#[derive(Debug, Drop)]
pub struct Matrix {
    row_count: u32,
    col_count: u32,
    bytes: Vec<u8>,
}

impl Model for Matrix {
    ghost use Rattle.std.specs.Prelude.{◌≡◌, ◌*◌, vec_len};
    ghost use Rattle.gf_rows.specs.Matrix.{Grid, rows_of};
    ghost use Rattle.gf_core.specs.Bytes.{AreBytes};

    ghost Value = { Grid };

    ghost view = { λ m. record { cols = m.col_count; rows = rows_of m.row_count m.col_count m.bytes.items } };

    ghost invariant = { λ m. (vec_len m.bytes ≡ m.row_count * m.col_count) × AreBytes m.bytes.items };
}

impl Matrix {
    /// A matrix of zeros with these numbers of rows and columns, either of which may be 0.
    pub fn zeros(alloc: Global, rows: u32, cols: u32) -> Result<Matrix, AllocError>
        ensures { IfOk result (λ m. m ≡ record { cols = cols; rows = replicate rows (replicate cols 0) }) }
    {
        let bytes = vec![in alloc; 0; rows as usize * cols as usize]?;
        Ok(Matrix {
            row_count: rows,
            col_count: cols,
            bytes,
        })
    }

    /// The number of rows.
    pub fn rows(&self) -> u32
        ensures count { result ≡ length self.now.rows }
        ensures matrix { IsMatrix self.now }
    {
        self.row_count
    }

    /// The number of columns.
    pub fn cols(&self) -> u32
        ensures { result ≡ self.now.cols }
    {
        self.col_count
    }

    /// The entry of a row and a column.
    pub fn get(&self, r: u32, c: u32) -> Gf
        requires row { r < length self.now.rows }
        requires column { c < self.now.cols }
        ensures value { result ≡ matrix_entry self.now r c }
        ensures matrix { IsMatrix self.now }
    {
        Gf::new(self.bytes[r as usize * self.col_count as usize + c as usize])
    }

    /// Writes the entry of a row and a column.
    pub fn set(&mut self, r: u32, c: u32, v: Gf)
        requires row { r < length self.old.rows }
        requires column { c < self.old.cols }
        ensures row { self.new ≡ with_matrix_row self.old r (slice_set (matrix_row self.old r) c v) }
        ensures matrix { IsMatrix self.new }
    {
        let at = r as usize * self.col_count as usize + c as usize;
        self.bytes[at] = v.byte();
    }

    /// A row, which has a byte for each column.
    pub fn row(&self, r: u32) -> &[u8]
        requires { r < length self.now.rows }
        ensures values { result.now ≡ matrix_row self.now r }
        ensures width { length result.now ≡ self.now.cols }
    {
        let width = self.col_count as usize;
        let start = r as usize * width;
        &self.bytes.as_slice()[start..start + width]
    }

    /// Writes a whole row, which has a byte for each column.
    pub fn set_row(&mut self, r: u32, bytes: &[u8])
        requires row { r < length self.old.rows }
        requires width { length bytes.now ≡ self.old.cols }
        ensures row { self.new ≡ with_matrix_row self.old r bytes.now }
        ensures matrix { IsMatrix self.new }
    {
        let width = self.col_count as usize;
        let start = r as usize * width;
        self.bytes.as_mut_slice()[start..start + width].copy_from_slice(bytes);
    }

    /// Adds `c` times row `src` to row `dst`, another row, and counts one step.
    pub fn axpy<C: Ledger>(&mut self, dst: u32, c: Gf, src: u32, coef_steps: &mut Steps<C>)
        requires dst { dst < length self.old.rows }
        requires src { src < length self.old.rows }
        requires apart { dst ≢ src }
        ensures row { self.new ≡ with_matrix_row self.old dst (add_scaled_row (matrix_row self.old dst) c (matrix_row self.old src)) }
        ensures matrix { IsMatrix self.new }
        ensures counted { coef_steps.new ≡ coef_steps.old + 1 }
    {
        let width = self.col_count as usize;
        add_scaled_inside(
            self.bytes.as_mut_slice(),
            width,
            dst as usize * width,
            c,
            src as usize * width,
        );
        coef_steps.tick();
    }

    /// Makes row `r` `c` times itself, where `c` isn't 0, and counts one step.
    pub fn scale<C: Ledger>(&mut self, r: u32, c: Gf, coef_steps: &mut Steps<C>)
        requires row { r < length self.old.rows }
        requires factor { c ≢ 0 }
        ensures row { self.new ≡ with_matrix_row self.old r (scaled_row c (matrix_row self.old r)) }
        ensures matrix { IsMatrix self.new }
        ensures counted { coef_steps.new ≡ coef_steps.old + 1 }
    {
        let width = self.col_count as usize;
        let start = r as usize * width;
        kernels::scale(
            &mut self.bytes.as_mut_slice()[start..start + width],
            c,
            coef_steps,
        );
    }
}
