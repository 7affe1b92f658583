ghost use Rattle.std.specs.Prelude.{◌≡◌, ◌+◌, ◌≤◌, ◌⊎◌, length, slice_range};
ghost use Rattle.gf_core.specs.Rows.{add_scaled_row};
ghost use Rattle.gf_rows.specs.Matrix.{with_part};

use gf_core::Gf;
use gf_rows::add_scaled;

// Adds c times one stretch of a buffer to another stretch as long that doesn't meet it.
pub(crate) fn add_scaled_inside(bytes: &mut [u8], width: usize, dst: usize, c: Gf, src: usize)
    requires dst { dst + width ≤ length bytes.old }
    requires src { src + width ≤ length bytes.old }
    requires apart { (dst + width ≤ src) ⊎ (src + width ≤ dst) }
    ensures { bytes.new ≡ with_part bytes.old dst (add_scaled_row (slice_range bytes.old dst (dst + width)) c (slice_range bytes.old src (src + width))) }
{
    if dst < src {
        let (front, back) = bytes.split_at_mut(src);
        add_scaled(&mut front[dst..dst + width], c, &back[..width]);
    } else {
        let (front, back) = bytes.split_at_mut(dst);
        add_scaled(&mut back[..width], c, &front[src..src + width]);
    }
}
