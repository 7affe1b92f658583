//! Sums of rows by factors.
ghost use Rattle.std.specs.Prelude.{ℕ, ◌≡◌, ◌<◌, IfOk, All, length, replicate, slice_index, slice_index_or, []};
ghost use Rattle.gf_core.specs.Field.{gf_mul, gf_sum};
ghost use Rattle.gf_core.specs.Combinations.{combination};
ghost use Rattle.bats_model.specs.Coded.{unit_vector};
ghost use Rattle.bats_model.specs.Relay.{payloads_of};

use bats_model::Packet;
use gf_core::Gf;
use gf_rows::{Matrix, add_scaled};
use std::alloc::{AllocError, Global};

// Adds the rows, each times its factor, to a row of zeros.
fn add_rows(sum: &mut [u8], factors: &[u8], rows: &Matrix)
    requires width { length sum.old ≡ rows.now.cols }
    requires each { length factors.now ≡ length rows.now.rows }
    requires zeros { sum.old ≡ replicate (length sum.old) 0 }
    ensures { sum.new ≡ combination rows.now.cols factors.now rows.now.rows }
{
    'rows: for i in 0..rows.rows() {
        add_scaled(sum, Gf::new(factors[i as usize]), rows.row(i));
    }
}

/// The sum of the rows, each times its factor.
pub(crate) fn sum_of_rows(
    alloc: Global,
    factors: &[u8],
    rows: &Matrix,
) -> Result<Vec<u8>, AllocError>
    requires { length factors.now ≡ length rows.now.rows }
    ensures { IfOk result (λ sum. sum.items ≡ combination rows.now.cols factors.now rows.now.rows) }
{
    let mut sum = vec![in alloc; 0; rows.cols() as usize]?;
    add_rows(&mut sum, factors, rows);
    Ok(sum)
}

/// The row of `n` bytes that is 1 at place `s` and 0 elsewhere.
pub(crate) fn unit_of(alloc: Global, n: u32, s: u32) -> Result<Vec<u8>, AllocError>
    requires { s < n }
    ensures { IfOk result (λ unit. unit.items ≡ unit_vector n s) }
{
    let mut unit = vec![in alloc; 0; n as usize]?;
    unit[s as usize] = 1;
    Ok(unit)
}

/// The byte in a column of the sum of the packets' payloads, each times its factor.
pub(crate) fn payload_byte(packets: &[Packet], factors: &[u8], column: usize) -> Gf
    requires each { length factors.now ≡ length packets.now }
    requires inside { All (λ packet. column < length packet.payload) packets.now }
    ensures { result ≡ gf_sum (length packets.now)
        (λ i. gf_mul (slice_index factors.now i) (slice_index (slice_index_or (payloads_of packets.now) i []) column)) }
{
    let mut sum = Gf::ZERO;
    'packets: for i in 0..packets.len() {
        let byte = Gf::new(packets[i].payload.as_slice()[column]);
        sum = sum.add(Gf::new(factors[i]).mul(byte));
    }
    sum
}
