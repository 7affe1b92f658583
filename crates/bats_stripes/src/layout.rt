ghost use Rattle.std.specs.Prelude.{◌≡◌, ◌<◌, ◌≤◌, ◌+◌, ◌*◌, ◌/◌, ◌%◌, ℕ};
ghost use Rattle.bats_stripes.specs.steps.Stripes.{IsStriped};

/// Where the bytes of payload rows lie: stripe after stripe, and in a stripe row after row.
#[derive(Clone, Copy, Debug)]
pub(crate) struct Layout {
    /// The number of rows.
    pub(crate) rows: u32,
    /// The number of columns.
    pub(crate) cols: u32,
    /// The columns of a stripe. The last stripe may have fewer.
    pub(crate) width: u32,
    /// The bytes of a row in a stripe: the width, rounded up to whole vectors of 32 bytes.
    pub(crate) stride: u32,
    /// The number of stripes.
    pub(crate) stripes: u32,
}

impl Layout {
    /// A stripe for each worker, as wide as the columns divided by the workers, rounded up. Where that leaves workers without
    /// a column, there are fewer stripes.
    pub(crate) fn of(rows: u32, cols: u32, workers: u32) -> Layout
        requires some { 0 < cols }
        requires cols { cols ≤ 2048 }
        requires busy { 0 < workers }
        requires workers { workers ≤ 64 }
        ensures rows { result.rows ≡ rows }
        ensures cols { result.cols ≡ cols }
        ensures striped { IsStriped rows cols result.width result.stride result.stripes (result.stripes * (rows * result.stride)) }
        ensures stripes { result.stripes ≤ 64 }
        ensures stride { result.stride ≤ 2080 }
    {
        let width = cols.div_ceil(workers);
        Layout {
            rows,
            cols,
            width,
            stride: width.div_ceil(32) * 32,
            stripes: cols.div_ceil(width),
        }
    }

    /// The first column of a stripe.
    pub(crate) fn first(self, k: u32) -> usize
        requires stripe { k < self.stripes }
        requires stripes { self.stripes ≤ 64 }
        requires fits { self.width ≤ self.stride }
        requires stride { self.stride ≤ 2080 }
        ensures { result ≡ k * self.width }
    {
        k as usize * self.width as usize
    }

    /// The number of columns of a stripe.
    pub(crate) fn piece(self, k: u32) -> usize
        requires stripe { k < self.stripes }
        requires stripes { self.stripes ≤ 64 }
        requires some { 0 < self.width }
        requires fits { self.width ≤ self.stride }
        requires stride { self.stride ≤ 2080 }
        requires full { self.stripes * self.width < self.cols + self.width }
        ensures width { result ≤ self.width }
        ensures within { k * self.width + result ≤ self.cols }
        ensures all { (c : ℕ) → c < self.cols → c / self.width ≡ k → c % self.width < result }
    {
        let start = self.first(k);
        if start + self.width as usize <= self.cols as usize {
            self.width as usize
        } else {
            self.cols as usize - start
        }
    }

    /// The place of a row's first byte in a stripe.
    pub(crate) fn place(self, k: u32, r: u32) -> usize
        requires stripe { k < self.stripes }
        requires stripes { self.stripes ≤ 64 }
        requires stride { self.stride ≤ 2080 }
        requires row { r < self.rows }
        ensures { result ≡ (k * self.rows + r) * self.stride }
    {
        (k as usize * self.rows as usize + r as usize) * self.stride as usize
    }
}
