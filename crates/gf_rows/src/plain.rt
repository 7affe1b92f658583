ghost use Rattle.std.specs.Prelude.{◌≡◌, length};
ghost use Rattle.gf_core.specs.Rows.{add_scaled_row, row_sum, scaled_row};

use gf_core::Gf;

// Adds `c` times each byte of `src` to the byte of `dst` at the same place, byte by byte. It makes no tables, so that it
// serves rows of a few bytes, and the bytes at the end of a row that fill no vector.
pub(crate) fn add_scaled(dst: &mut [u8], c: Gf, src: &[u8])
    requires { length dst.old ≡ length src.now }
    ensures { dst.new ≡ add_scaled_row dst.old c src.now }
{
    for i in 0..dst.len() {
        dst[i] ^= c.mul(Gf::new(src[i])).byte();
    }
}

// Makes each byte `c` times itself, byte by byte.
pub(crate) fn scale_row(row: &mut [u8], c: Gf)
    ensures { row.new ≡ scaled_row c row.old }
{
    for byte in row.iter_mut() {
        *byte = c.mul(Gf::new(*byte)).byte();
    }
}

// Adds each byte of `src` to the byte of `dst` at the same place, byte by byte.
pub(crate) fn add_row(dst: &mut [u8], src: &[u8])
    requires { length dst.old ≡ length src.now }
    ensures { dst.new ≡ row_sum dst.old src.now }
{
    for i in 0..dst.len() {
        dst[i] ^= src[i];
    }
}
