ghost use Rattle.std.specs.Prelude.{◌≡◌, ◌%◌, length};
ghost use Rattle.gf_core.specs.Rows.{add_scaled_row, row_sum, scaled_row};
ghost use Rattle.gf_rows.specs.Multiples.{sum_of_four};

use crate::halves::Halves;
use crate::multiple::Multiple;
use gf_core::Gf;
use std::simd::prelude::*;

// Adds `c` times each byte of `src` to the byte of `dst` at the same place, 32 bytes at a time. The rows have to fill
// whole vectors.
pub(crate) fn add_scaled(dst: &mut [u8], c: Gf, src: &[u8])
    requires whole { length dst.old % 32 ≡ 0 }
    requires same_length { length dst.old ≡ length src.now }
    ensures { dst.new ≡ add_scaled_row dst.old c src.now }
{
    let products = Halves::of(c);
    for k in 0..dst.len() / 32 {
        let at = k * 32;
        let product = products.times(u8x32::from_slice(&src[at..]));
        let sum = u8x32::from_slice(&dst[at..]) ^ product;
        sum.copy_to_slice(&mut dst[at..]);
    }
}

// Makes each byte `c` times itself, 32 bytes at a time. The row has to fill whole vectors.
pub(crate) fn scale_row(row: &mut [u8], c: Gf)
    requires { length row.old % 32 ≡ 0 }
    ensures { row.new ≡ scaled_row c row.old }
{
    let products = Halves::of(c);
    for k in 0..row.len() / 32 {
        let at = k * 32;
        let product = products.times(u8x32::from_slice(&row[at..]));
        product.copy_to_slice(&mut row[at..]);
    }
}

// Adds each byte of `src` to the byte of `dst` at the same place, 32 bytes at a time. The rows have to fill whole vectors.
pub(crate) fn add_row(dst: &mut [u8], src: &[u8])
    requires whole { length dst.old % 32 ≡ 0 }
    requires same_length { length dst.old ≡ length src.now }
    ensures { dst.new ≡ row_sum dst.old src.now }
{
    for k in 0..dst.len() / 32 {
        let at = k * 32;
        let sum = u8x32::from_slice(&dst[at..]) ^ u8x32::from_slice(&src[at..]);
        sum.copy_to_slice(&mut dst[at..]);
    }
}

// Adds four multiples to `dst` in one pass, 32 bytes at a time. The rows have to fill whole vectors.
pub(crate) fn add_four(dst: &mut [u8], a: &Multiple, b: &Multiple, c: &Multiple, d: &Multiple)
    requires whole { length dst.old % 32 ≡ 0 }
    requires length_a { length dst.old ≡ length a.now.row.now }
    requires length_b { length dst.old ≡ length b.now.row.now }
    requires length_c { length dst.old ≡ length c.now.row.now }
    requires length_d { length dst.old ≡ length d.now.row.now }
    ensures { dst.new ≡ row_sum dst.old (sum_of_four a.now.factor a.now.row.now b.now.factor b.now.row.now c.now.factor c.now.row.now d.now.factor d.now.row.now) }
{
    let of_a = Halves::of(a.factor);
    let of_b = Halves::of(b.factor);
    let of_c = Halves::of(c.factor);
    let of_d = Halves::of(d.factor);
    for k in 0..dst.len() / 32 {
        let at = k * 32;
        let product_a = of_a.times(u8x32::from_slice(&a.row[at..]));
        let product_b = of_b.times(u8x32::from_slice(&b.row[at..]));
        let product_c = of_c.times(u8x32::from_slice(&c.row[at..]));
        let product_d = of_d.times(u8x32::from_slice(&d.row[at..]));
        let products = product_a ^ product_b ^ product_c ^ product_d;
        let sum = u8x32::from_slice(&dst[at..]) ^ products;
        sum.copy_to_slice(&mut dst[at..]);
    }
}
