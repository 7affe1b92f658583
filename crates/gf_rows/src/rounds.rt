ghost use Rattle.std.specs.Prelude.{◌≡◌, ◌<◌, ◌%◌, ◌==◌, ℕ, if◌then◌else◌, length, map};
ghost use Rattle.std.specs.Int.{bit_at};
ghost use Rattle.gf_core.specs.Field.{double, gf_mul};
ghost use Rattle.gf_core.specs.Rows.{add_scaled_row, scaled_row};

use gf_core::Gf;
use std::simd::prelude::*;

// Products without tables, for rows that are too short for them: a vector is doubled once for each bit of the factor,
// and what it was before is added where the bit is set.

// Each lane times x.
#[inline(always)]
fn doubled(v: u8x16) -> u8x16
    ensures { result ≡ map double v }
{
    let reduction = v
        .simd_ge(u8x16::splat(128))
        .select(u8x16::splat(0x1D), u8x16::splat(0));
    (v + v) ^ reduction
}

// The vector if a bit of the factor is set, and zeros otherwise.
#[inline(always)]
fn picked(c: Gf, place: u8, v: u8x16) -> u8x16
    requires { place < 8 }
    ensures { result ≡ map (λ x. if bit_at c place == 1 then x else 0) v }
{
    let bit = (u8x16::splat(c.byte()) >> u8x16::splat(place)) & u8x16::splat(1);
    bit.simd_eq(u8x16::splat(1)).select(v, u8x16::splat(0))
}

// The factor times each lane, by eight rounds.
#[inline(always)]
fn times(c: Gf, v: u8x16) -> u8x16
    ensures { result ≡ map (gf_mul c) v }
{
    let mut sum = u8x16::splat(0);
    let mut power = v;
    for i in 0..8 {
        sum = sum ^ picked(c, i, power);
        power = doubled(power);
    }
    sum
}

// Adds `c` times each byte of `src` to the byte of `dst` at the same place, 16 bytes at a time. The rows have to fill
// whole vectors.
pub(crate) fn add_scaled(dst: &mut [u8], c: Gf, src: &[u8])
    requires whole { length dst.old % 16 ≡ 0 }
    requires same_length { length dst.old ≡ length src.now }
    ensures { dst.new ≡ add_scaled_row dst.old c src.now }
{
    for k in 0..dst.len() / 16 {
        let at = k * 16;
        let product = times(c, u8x16::from_slice(&src[at..]));
        let sum = u8x16::from_slice(&dst[at..]) ^ product;
        sum.copy_to_slice(&mut dst[at..]);
    }
}

// Makes each byte `c` times itself, 16 bytes at a time. The row has to fill whole vectors.
pub(crate) fn scale_row(row: &mut [u8], c: Gf)
    requires { length row.old % 16 ≡ 0 }
    ensures { row.new ≡ scaled_row c row.old }
{
    for k in 0..row.len() / 16 {
        let at = k * 16;
        let product = times(c, u8x16::from_slice(&row[at..]));
        product.copy_to_slice(&mut row[at..]);
    }
}
