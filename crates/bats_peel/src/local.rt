//! Held batches as small matrices: a row for each kept packet, and a column for each contributor.
ghost use Rattle.std.specs.Prelude.{◌≡◌, ◌<◌, IfOk, length};
ghost use Rattle.gf_rows.specs.Matrix.{IsMatrix};
ghost use Rattle.bats_model.specs.Batch.{degree_of};
ghost use Rattle.bats_peel.specs.steps.Local.{AreLocals, IsLocalMatrix, WritesEntries, local_factor};

use bats_batch::{Basis, Held};
use bats_model::{Batch, Session};
use bats_sampler::batch;
use gf_rows::{Matrix, dot};
use std::alloc::{AllocError, Global};

/// A held batch over its own contributors.
#[derive(Drop)]
pub(crate) struct Local {
    /// The payload row of its first kept packet.
    pub(crate) first: u32,
    /// Its contributors and generator.
    pub(crate) batch: Batch,
    /// A row for each kept packet, a column for each contributor: the packet's coefficients times the generator.
    pub(crate) matrix: Matrix,
}

// Writes to row `r` the coefficients times the batch's generator.
fn write_row(matrix: &mut Matrix, r: u32, batch: &Batch, coefs: &[u8])
    requires matrix { IsMatrix matrix.old }
    requires row { r < length matrix.old.rows }
    requires columns { matrix.old.cols ≡ degree_of batch.now }
    requires coefs { length coefs.now ≡ batch.now.columns }
    ensures { WritesEntries (local_factor batch.now coefs.now) (degree_of batch.now) r matrix.old matrix.new }
{
    'contributors: for k in 0..batch.degree() {
        matrix.set(r, k, dot(coefs, batch.row(k)));
    }
}

// The matrix of a batch's kept packets.
fn local_matrix(alloc: Global, batch: &Batch, basis: &Basis) -> Result<Matrix, AllocError>
    requires { basis.now.m ≡ batch.now.columns }
    ensures { IfOk result (IsLocalMatrix batch.now basis.now.kept) }
{
    let mut matrix = Matrix::zeros(alloc, basis.rank(), batch.degree())?;
    'packets: for i in 0..basis.rank() {
        write_row(&mut matrix, i, batch, basis.kept(i).coefs.as_slice());
    }
    Ok(matrix)
}

/// The held batches over their contributors, by rising number.
pub(crate) fn locals(
    alloc: Global,
    session: &Session,
    held: &Held,
) -> Result<Vec<Local>, AllocError>
    requires { held.now.session ≡ session.now }
    ensures { IfOk result (λ locals. AreLocals session.now held.now.batches locals.items) }
{
    let _rows = held.rows();
    let mut locals = Vec::new(alloc);
    let mut first = 0;
    'batches: for i in 0..held.batches() {
        let batch = batch(alloc, session, held.batch_at(i))?;
        let basis = held.basis_at(i);
        let matrix = local_matrix(alloc, &batch, basis)?;
        locals.push(Local {
            first,
            batch,
            matrix,
        })?;
        first += basis.rank();
    }
    Ok(locals)
}
