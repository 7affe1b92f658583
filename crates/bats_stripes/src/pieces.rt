//! A row of the payload, piece by piece: the bytes that it has in one stripe lie together.
ghost use Rattle.std.specs.Prelude.{◌≡◌, ◌≢◌, ◌+◌, ◌<◌, ◌≤◌, ◌⊎◌, ◌↔◌, ℕ, IsTrue, length, slice_index};
ghost use Rattle.bats_stripes.specs.Layout.{byte_place};
ghost use Rattle.bats_stripes.specs.steps.Stripes.{IsStriped};

use crate::layout::Layout;

// Writes a piece to a buffer, from a place on.
fn put_piece(buffer: &mut [u8], at: usize, piece: &[u8])
    requires { at + length piece.now ≤ length buffer.old }
    ensures size { length buffer.new ≡ length buffer.old }
    ensures inside { (i : ℕ) → i < length piece.now → slice_index buffer.new (at + i) ≡ slice_index piece.now i }
    ensures outside { (p : ℕ) → (p < at) ⊎ (at + length piece.now ≤ p) → slice_index buffer.new p ≡ slice_index buffer.old p }
{
    buffer[at..at + piece.len()].copy_from_slice(piece);
}

/// Writes row `r`, which has a byte for each column.
pub(crate) fn put_row(buffer: &mut [u8], layout: Layout, r: u32, row: &[u8])
    requires striped { IsStriped layout.rows layout.cols layout.width layout.stride layout.stripes (length buffer.old) }
    requires stripes { layout.stripes ≤ 64 }
    requires stride { layout.stride ≤ 2080 }
    requires row { r < layout.rows }
    requires width { length row.now ≡ layout.cols }
    ensures size { length buffer.new ≡ length buffer.old }
    ensures own { (c : ℕ) → c < layout.cols → slice_index buffer.new (byte_place layout.rows layout.width layout.stride r c) ≡ slice_index row.now c }
    ensures others { (q c : ℕ) → q < layout.rows → q ≢ r → c < layout.cols
        → slice_index buffer.new (byte_place layout.rows layout.width layout.stride q c) ≡ slice_index buffer.old (byte_place layout.rows layout.width layout.stride q c) }
{
    'pieces: for k in 0..layout.stripes {
        let start = layout.first(k);
        let end = start + layout.piece(k);
        put_piece(buffer, layout.place(k, r), &row[start..end]);
    }
}

/// Copies row `r` to `dst`, which has a byte for each column.
pub(crate) fn copy_row(buffer: &[u8], layout: Layout, r: u32, dst: &mut [u8])
    requires striped { IsStriped layout.rows layout.cols layout.width layout.stride layout.stripes (length buffer.now) }
    requires stripes { layout.stripes ≤ 64 }
    requires stride { layout.stride ≤ 2080 }
    requires row { r < layout.rows }
    requires width { length dst.old ≡ layout.cols }
    ensures size { length dst.new ≡ layout.cols }
    ensures own { (c : ℕ) → c < layout.cols → slice_index dst.new c ≡ slice_index buffer.now (byte_place layout.rows layout.width layout.stride r c) }
{
    'pieces: for k in 0..layout.stripes {
        let start = layout.place(k, r);
        let end = start + layout.piece(k);
        put_piece(dst, layout.first(k), &buffer[start..end]);
    }
}

// Whether every byte of a piece is 0.
fn is_zero(piece: &[u8]) -> bool
    ensures { IsTrue result ↔ ((i : ℕ) → i < length piece.now → slice_index piece.now i ≡ 0) }
{
    'bytes: for i in 0..piece.len() {
        if piece[i] != 0 {
            return false;
        }
    }
    true
}

/// Whether every byte of row `r` is 0.
pub(crate) fn row_is_zero(buffer: &[u8], layout: Layout, r: u32) -> bool
    requires striped { IsStriped layout.rows layout.cols layout.width layout.stride layout.stripes (length buffer.now) }
    requires stripes { layout.stripes ≤ 64 }
    requires stride { layout.stride ≤ 2080 }
    requires row { r < layout.rows }
    ensures { IsTrue result
        ↔ ((c : ℕ) → c < layout.cols → slice_index buffer.now (byte_place layout.rows layout.width layout.stride r c) ≡ 0) }
{
    'pieces: for k in 0..layout.stripes {
        let start = layout.place(k, r);
        let end = start + layout.piece(k);
        if !is_zero(&buffer[start..end]) {
            return false;
        }
    }
    true
}
