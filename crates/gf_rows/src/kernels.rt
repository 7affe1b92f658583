ghost use Rattle.std.specs.Prelude.{◌≡◌, ◌≢◌, ◌+◌, ◌<◌, length, slice_index};
ghost use Rattle.gf_core.specs.Field.{gf_mul, gf_sum};
ghost use Rattle.gf_core.specs.Rows.{add_scaled_row, row_sum, scaled_row};
ghost use Rattle.gf_rows.specs.Multiples.{sum_of_four};

use crate::multiple::Multiple;
use crate::steps::Steps;
use crate::{lanes, plain, rounds};
use gf_core::Gf;
use std::sync::ledger::Ledger;

/// Adds `c` times each byte of `src` to the byte of `dst` at the same place. The two have one length. A factor of 0 reads
/// no row.
pub fn add_scaled(dst: &mut [u8], c: Gf, src: &[u8])
    requires { length dst.old ≡ length src.now }
    ensures { dst.new ≡ add_scaled_row dst.old c src.now }
{
    match c.byte() {
        0 => {}
        1 => add_row(dst, src),
        _ => add_multiple(dst, c, src),
    }
}

// Adds each byte of `src` to the byte of `dst` at the same place.
fn add_row(dst: &mut [u8], src: &[u8])
    requires { length dst.old ≡ length src.now }
    ensures { dst.new ≡ row_sum dst.old src.now }
{
    if dst.len() < 32 {
        plain::add_row(dst, src)
    } else {
        add_row_by_vectors(dst, src)
    }
}

// Does what `add_row` does, with the bytes that fill vectors first and then the others.
fn add_row_by_vectors(dst: &mut [u8], src: &[u8])
    requires { length dst.old ≡ length src.now }
    ensures { dst.new ≡ row_sum dst.old src.now }
{
    let whole = dst.len() / 32 * 32;
    lanes::add_row(&mut dst[..whole], &src[..whole]);
    plain::add_row(&mut dst[whole..], &src[whole..]);
}

// Does what `add_scaled` does. Rows of fewer than 32 bytes are multiplied without tables.
fn add_multiple(dst: &mut [u8], c: Gf, src: &[u8])
    requires { length dst.old ≡ length src.now }
    ensures { dst.new ≡ add_scaled_row dst.old c src.now }
{
    if dst.len() < 32 {
        add_short(dst, c, src)
    } else {
        add_by_vectors(dst, c, src)
    }
}

// Does what `add_scaled` does without tables of the factor. Rows of fewer than 16 bytes go byte by byte.
fn add_short(dst: &mut [u8], c: Gf, src: &[u8])
    requires { length dst.old ≡ length src.now }
    ensures { dst.new ≡ add_scaled_row dst.old c src.now }
{
    if dst.len() < 16 {
        plain::add_scaled(dst, c, src)
    } else {
        add_by_rounds(dst, c, src)
    }
}

// Does what `add_short` does: 16 bytes at a time by rounds, and then the others.
fn add_by_rounds(dst: &mut [u8], c: Gf, src: &[u8])
    requires { length dst.old ≡ length src.now }
    ensures { dst.new ≡ add_scaled_row dst.old c src.now }
{
    let whole = dst.len() / 16 * 16;
    rounds::add_scaled(&mut dst[..whole], c, &src[..whole]);
    plain::add_scaled(&mut dst[whole..], c, &src[whole..]);
}

// Does what `add_scaled` does, with the bytes that fill vectors first and then the others.
fn add_by_vectors(dst: &mut [u8], c: Gf, src: &[u8])
    requires { length dst.old ≡ length src.now }
    ensures { dst.new ≡ add_scaled_row dst.old c src.now }
{
    let whole = dst.len() / 32 * 32;
    lanes::add_scaled(&mut dst[..whole], c, &src[..whole]);
    add_short(&mut dst[whole..], c, &src[whole..]);
}

/// Adds four multiples to `dst`, one after another, in a single pass over it where no factor is 0. All rows have its
/// length. A row whose factor is 0 isn't read.
pub fn add_four(dst: &mut [u8], a: &Multiple, b: &Multiple, c: &Multiple, d: &Multiple)
    requires length_a { length dst.old ≡ length a.now.row.now }
    requires length_b { length dst.old ≡ length b.now.row.now }
    requires length_c { length dst.old ≡ length c.now.row.now }
    requires length_d { length dst.old ≡ length d.now.row.now }
    ensures { dst.new ≡ add_scaled_row (add_scaled_row (add_scaled_row (add_scaled_row dst.old
        a.now.factor a.now.row.now) b.now.factor b.now.row.now) c.now.factor c.now.row.now)
        d.now.factor d.now.row.now }
{
    if dst.len() < 32 {
        add_four_short(dst, a, b, c, d);
    } else if any_is_zero(a, b, c, d) {
        add_each(dst, a, b, c, d);
    } else {
        add_four_by_vectors(dst, a, b, c, d);
    }
}

// Whether a factor is 0.
fn any_is_zero(a: &Multiple, b: &Multiple, c: &Multiple, d: &Multiple) -> bool {
    a.factor == Gf::ZERO || b.factor == Gf::ZERO || c.factor == Gf::ZERO || d.factor == Gf::ZERO
}

// Does what `add_four` does without tables of the factors. Rows of fewer than 16 bytes go byte by byte.
fn add_four_short(dst: &mut [u8], a: &Multiple, b: &Multiple, c: &Multiple, d: &Multiple)
    requires length_a { length dst.old ≡ length a.now.row.now }
    requires length_b { length dst.old ≡ length b.now.row.now }
    requires length_c { length dst.old ≡ length c.now.row.now }
    requires length_d { length dst.old ≡ length d.now.row.now }
    ensures { dst.new ≡ add_scaled_row (add_scaled_row (add_scaled_row (add_scaled_row dst.old
        a.now.factor a.now.row.now) b.now.factor b.now.row.now) c.now.factor c.now.row.now)
        d.now.factor d.now.row.now }
{
    if dst.len() < 16 {
        add_each_by_bytes(dst, a, b, c, d);
    } else {
        add_each(dst, a, b, c, d);
    }
}

// Does what `add_four` does, a row at a time, byte by byte.
fn add_each_by_bytes(dst: &mut [u8], a: &Multiple, b: &Multiple, c: &Multiple, d: &Multiple)
    requires length_a { length dst.old ≡ length a.now.row.now }
    requires length_b { length dst.old ≡ length b.now.row.now }
    requires length_c { length dst.old ≡ length c.now.row.now }
    requires length_d { length dst.old ≡ length d.now.row.now }
    ensures { dst.new ≡ add_scaled_row (add_scaled_row (add_scaled_row (add_scaled_row dst.old
        a.now.factor a.now.row.now) b.now.factor b.now.row.now) c.now.factor c.now.row.now)
        d.now.factor d.now.row.now }
{
    plain::add_scaled(dst, a.factor, a.row);
    plain::add_scaled(dst, b.factor, b.row);
    plain::add_scaled(dst, c.factor, c.row);
    plain::add_scaled(dst, d.factor, d.row);
}

// Does what `add_four` does, a row at a time.
fn add_each(dst: &mut [u8], a: &Multiple, b: &Multiple, c: &Multiple, d: &Multiple)
    requires length_a { length dst.old ≡ length a.now.row.now }
    requires length_b { length dst.old ≡ length b.now.row.now }
    requires length_c { length dst.old ≡ length c.now.row.now }
    requires length_d { length dst.old ≡ length d.now.row.now }
    ensures { dst.new ≡ add_scaled_row (add_scaled_row (add_scaled_row (add_scaled_row dst.old
        a.now.factor a.now.row.now) b.now.factor b.now.row.now) c.now.factor c.now.row.now)
        d.now.factor d.now.row.now }
{
    add_scaled(dst, a.factor, a.row);
    add_scaled(dst, b.factor, b.row);
    add_scaled(dst, c.factor, c.row);
    add_scaled(dst, d.factor, d.row);
}

// Does what `add_four` does, with the bytes that fill vectors first and then the others.
fn add_four_by_vectors(dst: &mut [u8], a: &Multiple, b: &Multiple, c: &Multiple, d: &Multiple)
    requires length_a { length dst.old ≡ length a.now.row.now }
    requires length_b { length dst.old ≡ length b.now.row.now }
    requires length_c { length dst.old ≡ length c.now.row.now }
    requires length_d { length dst.old ≡ length d.now.row.now }
    ensures { dst.new ≡ row_sum dst.old (sum_of_four a.now.factor a.now.row.now b.now.factor b.now.row.now
        c.now.factor c.now.row.now d.now.factor d.now.row.now) }
{
    let whole = dst.len() / 32 * 32;
    lanes::add_four(
        &mut dst[..whole],
        &a.front(whole),
        &b.front(whole),
        &c.front(whole),
        &d.front(whole),
    );
    add_four_short(
        &mut dst[whole..],
        &a.back(whole),
        &b.back(whole),
        &c.back(whole),
        &d.back(whole),
    );
}

/// Makes each byte `c` times itself. The factor isn't 0.
pub fn scale_row(row: &mut [u8], c: Gf)
    requires { c ≢ 0 }
    ensures row { row.new ≡ scaled_row c row.old }
    ensures byte { c < 256 }
{
    if c.byte() == 1 {
        return;
    }
    if row.len() < 32 {
        scale_short(row, c);
    } else {
        scale_by_vectors(row, c);
    }
}

// Does what `scale_row` does without tables of the factor. Rows of fewer than 16 bytes go byte by byte.
fn scale_short(row: &mut [u8], c: Gf)
    ensures { row.new ≡ scaled_row c row.old }
{
    if row.len() < 16 {
        plain::scale_row(row, c)
    } else {
        scale_by_rounds(row, c)
    }
}

// Does what `scale_short` does: 16 bytes at a time by rounds, and then the others.
fn scale_by_rounds(row: &mut [u8], c: Gf)
    ensures { row.new ≡ scaled_row c row.old }
{
    let whole = row.len() / 16 * 16;
    rounds::scale_row(&mut row[..whole], c);
    plain::scale_row(&mut row[whole..], c);
}

// Does what `scale_row` does, with the bytes that fill vectors first and then the others.
fn scale_by_vectors(row: &mut [u8], c: Gf)
    ensures { row.new ≡ scaled_row c row.old }
{
    let whole = row.len() / 32 * 32;
    lanes::scale_row(&mut row[..whole], c);
    scale_short(&mut row[whole..], c);
}

/// Does what `add_scaled` does, and counts one step.
pub fn axpy<L: Ledger>(dst: &mut [u8], c: Gf, src: &[u8], steps: &mut Steps<L>)
    requires { length dst.old ≡ length src.now }
    ensures row { dst.new ≡ add_scaled_row dst.old c src.now }
    ensures counted { steps.new ≡ steps.old + 1 }
{
    add_scaled(dst, c, src);
    steps.tick();
}

/// Does what `scale_row` does, and counts one step.
pub fn scale<L: Ledger>(row: &mut [u8], c: Gf, steps: &mut Steps<L>)
    requires { c ≢ 0 }
    ensures row { row.new ≡ scaled_row c row.old }
    ensures counted { steps.new ≡ steps.old + 1 }
    ensures byte { c < 256 }
{
    scale_row(row, c);
    steps.tick();
}

/// The sum of the products of the bytes at each place. The two rows have one length.
pub fn dot(a: &[u8], b: &[u8]) -> Gf
    requires { length a.now ≡ length b.now }
    ensures { result ≡ gf_sum (length a.now) (λ i. gf_mul (slice_index a.now i) (slice_index b.now i)) }
{
    let mut sum = Gf::ZERO;
    for i in 0..a.len() {
        sum = sum.add(Gf::new(a[i]).mul(Gf::new(b[i])));
    }
    sum
}
