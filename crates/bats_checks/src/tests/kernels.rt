ghost use Rattle.std.specs.Prelude.{◌≡◌, ◌≤◌, length};

use gf_core::Gf;
use gf_rows::{Multiple, add_four, add_scaled, scale_row};
use std::process::Abort;

const LONGEST: usize = 2048;

// Bytes that differ, and that differ from those of another first byte.
fn row_from(first: u8) -> [u8; LONGEST] {
    let mut row = [0; LONGEST];
    for i in 0..LONGEST {
        row[i] = ((i * 37 + i / 256 + first as usize) % 256) as u8;
    }
    row
}

// Adds a multiple of a row, byte by byte.
fn add_plainly(dst: &mut [u8], factor: Gf, src: &[u8])
    requires { length dst.old ≡ length src.now }
{
    for i in 0..dst.len() {
        dst[i] ^= factor.mul(Gf::new(src[i])).byte();
    }
}

// Makes a row its multiple, byte by byte.
fn scale_plainly(row: &mut [u8], factor: Gf) {
    for byte in row.iter_mut() {
        *byte = factor.mul(Gf::new(*byte)).byte();
    }
}

// The bytes after the first `count` stay as they are, so whole rows are compared.
fn compare_with_plain(rt: &impl Abort, factor: Gf, count: usize)
    requires { count ≤ LONGEST }
{
    let src = row_from(11);
    let mut row = row_from(5);
    let mut plain_row = row_from(5);
    add_scaled(&mut row[..count], factor, &src[..count]);
    add_plainly(&mut plain_row[..count], factor, &src[..count]);
    assert_eq!(rt; row, plain_row, "sum, {factor:?} at {count}");
    if factor != Gf::ZERO {
        scale_row(&mut row[..count], factor);
        scale_plainly(&mut plain_row[..count], factor);
        assert_eq!(rt; row, plain_row, "multiple, {factor:?} at {count}");
    }
}

fn compare_all_factors(rt: &impl Abort, count: usize)
    requires { count ≤ LONGEST }
{
    for factor in 0..=u8::MAX {
        compare_with_plain(rt, Gf::new(factor), count);
    }
}

#[test]
fn vectors_do_what_the_plain_loop_does(rt: HostRuntime) {
    for count in 0..=130 {
        compare_all_factors(&rt, count);
    }
    compare_all_factors(&rt, 1023);
    compare_all_factors(&rt, 1024);
    compare_all_factors(&rt, 1025);
    compare_all_factors(&rt, 2048);
}

fn compare_four_with_plain(rt: &impl Abort, first: u8, count: usize)
    requires { count ≤ LONGEST }
{
    let sources = [row_from(1), row_from(2), row_from(3), row_from(4)];
    let a = Multiple {
        factor: Gf::new(first),
        row: &sources[0][..count],
    };
    let b = Multiple {
        factor: Gf::new(first / 2),
        row: &sources[1][..count],
    };
    let c = Multiple {
        factor: Gf::new(first / 3),
        row: &sources[2][..count],
    };
    let d = Multiple {
        factor: Gf::new(255 - first),
        row: &sources[3][..count],
    };
    let mut row = row_from(5);
    let mut plain_row = row_from(5);
    add_four(&mut row[..count], &a, &b, &c, &d);
    add_plainly(&mut plain_row[..count], a.factor, a.row);
    add_plainly(&mut plain_row[..count], b.factor, b.row);
    add_plainly(&mut plain_row[..count], c.factor, c.row);
    add_plainly(&mut plain_row[..count], d.factor, d.row);
    assert_eq!(rt; row, plain_row, "from {first} on at {count}");
}

#[test]
fn one_pass_adds_four_rows(rt: HostRuntime) {
    for count in 0..=130 {
        for first in 0..=u8::MAX {
            compare_four_with_plain(&rt, first, count);
        }
    }
    compare_four_with_plain(&rt, 3, 1025);
    compare_four_with_plain(&rt, 3, 2048);
}

// Adds a multiple of a row of one byte to zeros, and compares each byte of the sum.
fn add_to_zeros(rt: &impl Abort, factor: u8, byte: u8, count: usize, want: u8)
    requires { count ≤ LONGEST }
{
    let src = [byte; LONGEST];
    let mut dst = [0; LONGEST];
    add_scaled(&mut dst[..count], Gf::new(factor), &src[..count]);
    for (i, found) in dst.iter().enumerate() {
        assert_eq!(rt;
            *found,
            if i < count { want } else { 0 },
            "{factor} times {byte} at {i} of {count}"
        );
    }
}

#[test]
fn adds_to_zeros_at_each_length(rt: HostRuntime) {
    for count in [0, 1, 31, 32, 33, 63, 64, 65, 2048] {
        if count <= LONGEST {
            add_to_zeros(&rt, 2, 0x80, count, 0x1D);
        }
    }
    add_to_zeros(&rt, 0, 0x80, 65, 0);
    add_to_zeros(&rt, 1, 0x80, 65, 0x80);
}

#[test]
fn each_product_is_that_of_the_field(rt: HostRuntime) {
    for factor in 0..=u8::MAX {
        for byte in 0..=u8::MAX {
            let want = Gf::new(factor).mul_bits(Gf::new(byte)).byte();
            let mut short = [0];
            add_scaled(&mut short, Gf::new(factor), &[byte]);
            assert_eq!(rt; short[0], want, "{factor} times {byte}");
            let mut long = [0; 32];
            add_scaled(&mut long, Gf::new(factor), &[byte; 32]);
            assert_eq!(rt; long, [want; 32], "{factor} times {byte}");
        }
    }
}
