//! The payload rows: the payloads of the kept packets, on which the plan is run.
ghost use Rattle.std.specs.Prelude.{◌≡◌, ◌+◌, ◌≤◌, ◌++◌, IfOk, length, take};
ghost use Rattle.bats_batch.specs.Held.{kept_packets};
ghost use Rattle.bats_model.specs.Relay.{payloads_of};
ghost use Rattle.bats_decode.specs.steps.Replayed.{payload_grid};

use bats_batch::{Basis, Held};
use bats_model::Session;
use bats_stripes::Payload;
use std::alloc::{AllocError, Global};

// Writes the payloads of a batch's kept packets to the rows from `first` on.
fn write_batch(rows: &mut Payload, first: u32, basis: &Basis)
    requires room { first + length basis.now.kept ≤ length rows.old.rows }
    requires width { basis.now.t ≡ rows.old.cols }
    ensures cols { rows.new.cols ≡ rows.old.cols }
    ensures count { length rows.new.rows ≡ length rows.old.rows }
    ensures written { take (first + length basis.now.kept) rows.new.rows
        ≡ take first rows.old.rows ++ payloads_of basis.now.kept }
{
    let _rows = rows.rows();
    'packets: for i in 0..basis.rank() {
        rows.put_row(first + i, basis.kept(i).payload.as_slice());
    }
}

/// The payloads of all kept packets, batch by batch, a row of T bytes for each, to be worked on by 1 to 64 workers. What is
/// held is given up.
pub(crate) fn of_kept(
    alloc: Global,
    session: &Session,
    held: Held,
    workers: u32,
) -> Result<Payload, AllocError>
    requires session { held.session ≡ session.now }
    requires workers { (1 ≤ workers) × (workers ≤ 64) }
    ensures { IfOk result (λ payload. payload ≡ payload_grid session.now.t (kept_packets held.batches)) }
{
    let mut rows = Payload::zeros(alloc, held.rows(), session.t(), workers)?;
    let mut first = 0;
    'batches: for i in 0..held.batches() {
        let basis = held.basis_at(i);
        write_batch(&mut rows, first, basis);
        first += basis.rank();
    }
    Ok(rows)
}
