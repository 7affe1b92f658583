//! What packets say of each symbol: a row for each packet, an entry for each symbol.
ghost use Rattle.std.specs.Prelude.{ℕ, ◌≡◌, ◌<◌, ◌≤◌, IfOk, All, length, replicate, slice_index};
ghost use Rattle.gf_core.specs.Field.{gf_add, gf_sum};
ghost use Rattle.gf_rows.specs.Matrix.{IsMatrix};
ghost use Rattle.bats_model.specs.Session.{symbols_of};
ghost use Rattle.bats_model.specs.Batch.{batch_of, degree_of, contributor_of};
ghost use Rattle.bats_model.specs.PacketFile.{HasShape};
ghost use Rattle.bats_cert.specs.Sums.{symbol_row};
ghost use Rattle.bats_cert.specs.Shown.{most_listed};
ghost use Rattle.bats_cert.specs.steps.Saying.{said_term, said_grid};

use bats_model::{Batch, Packet, Session};
use bats_sampler::batch;
use gf_core::Gf;
use gf_rows::{Matrix, dot};
use std::alloc::{AllocError, Global};

// Adds what contributor `k` of the packet's batch says to the entry of its symbol.
fn add_contributor(row: &mut [u8], batch: &Batch, coefs: &[u8], k: u32)
    requires row { k < degree_of batch.now }
    requires width { length coefs.now ≡ batch.now.columns }
    requires inside { contributor_of batch.now k < length row.old }
    ensures length { length row.new ≡ length row.old }
    ensures entries { (u : ℕ) → u < length row.old
        → slice_index row.new u ≡ gf_add (slice_index row.old u) (said_term batch.now coefs.now u k) }
{
    let s = batch.contributor(k) as usize;
    let said = dot(coefs, batch.row(k)).byte();
    row[s] = Gf::new(row[s]).add(Gf::new(said)).byte();
}

// Adds what each contributor says to a row of zeros.
fn add_contributors(row: &mut [u8], batch: &Batch, coefs: &[u8])
    requires width { length coefs.now ≡ batch.now.columns }
    requires inside { All (λ s. s < length row.old) batch.now.contributors }
    requires zeros { row.old ≡ replicate (length row.old) 0 }
    ensures length { length row.new ≡ length row.old }
    ensures entries { (u : ℕ) → u < length row.old
        → slice_index row.new u ≡ gf_sum (degree_of batch.now) (said_term batch.now coefs.now u) }
{
    'contributors: for k in 0..batch.degree() {
        add_contributor(row, batch, coefs, k);
    }
}

// Writes what a packet of this batch says of each symbol over a row of zeros.
fn write_row(row: &mut [u8], session: &Session, packet: &Packet, batch: &Batch)
    requires shape { HasShape session.now packet.now }
    requires of_session { batch.now ≡ batch_of session.now packet.now.batch }
    requires inside { All (λ s. s < length row.old) batch.now.contributors }
    requires size { length row.old ≡ symbols_of session.now }
    requires zeros { row.old ≡ replicate (length row.old) 0 }
    ensures { row.new ≡ symbol_row session.now packet.now }
{
    add_contributors(row, batch, packet.coefs.as_slice());
}

// What a packet says of each symbol.
fn said_by(alloc: Global, session: &Session, packet: &Packet) -> Result<Vec<u8>, AllocError>
    requires { HasShape session.now packet.now }
    ensures { IfOk result (λ row. row.items ≡ symbol_row session.now packet.now) }
{
    let batch = batch(alloc, session, packet.batch)?;
    let mut row = vec![in alloc; 0; session.symbols() as usize]?;
    write_row(&mut row, session, packet, &batch);
    Ok(row)
}

/// What the packets say of each symbol, a row for each packet.
pub(crate) fn said_by_each(
    alloc: Global,
    session: &Session,
    packets: &[Packet],
) -> Result<Matrix, AllocError>
    requires few { length packets.now ≤ most_listed }
    requires shapes { All (HasShape session.now) packets.now }
    ensures { IfOk result (λ said. said ≡ said_grid session.now packets.now) }
{
    let mut said = Matrix::zeros(alloc, packets.len() as u32, session.symbols())?;
    'packets: for i in 0..packets.len() {
        let row = said_by(alloc, session, &packets[i])?;
        said.set_row(i as u32, &row);
    }
    Ok(said)
}
