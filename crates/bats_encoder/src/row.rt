ghost use Rattle.std.specs.Prelude.{◌≡◌, ◌≤◌, length};
ghost use Rattle.gf_core.specs.Rows.{add_scaled_row};

use gf_core::Gf;
use gf_rows::{Multiple, add_four, add_scaled};

// Adds `factor` times each byte of a symbol to the byte of `row` at its place. Bytes of `row` past the end of the
// symbol stay as they are, which is what adding zeros does.
pub(crate) fn add_symbol(row: &mut [u8], factor: Gf, symbol: &[u8])
    requires { length symbol.now ≤ length row.old }
    ensures { row.new ≡ add_scaled_row row.old factor symbol.now }
{
    if factor.byte() == 0 {
        return;
    }
    add_scaled(&mut row[..symbol.len()], factor, symbol);
}

// Adds four symbols, one after another, and in a single pass where each is as long as the row.
pub(crate) fn add_four_symbols(
    row: &mut [u8],
    a: &Multiple,
    b: &Multiple,
    c: &Multiple,
    d: &Multiple,
)
    requires length_a { length a.now.row.now ≤ length row.old }
    requires length_b { length b.now.row.now ≤ length row.old }
    requires length_c { length c.now.row.now ≤ length row.old }
    requires length_d { length d.now.row.now ≤ length row.old }
    ensures { row.new ≡ add_scaled_row (add_scaled_row (add_scaled_row (add_scaled_row row.old
        a.now.factor a.now.row.now) b.now.factor b.now.row.now) c.now.factor c.now.row.now)
        d.now.factor d.now.row.now }
{
    let size = row.len();
    if a.row.len() == size && b.row.len() == size && c.row.len() == size && d.row.len() == size {
        add_four(row, a, b, c, d);
    } else {
        add_symbol(row, a.factor, a.row);
        add_symbol(row, b.factor, b.row);
        add_symbol(row, c.factor, c.row);
        add_symbol(row, d.factor, d.row);
    }
}
