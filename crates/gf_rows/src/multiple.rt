ghost use Rattle.std.specs.Prelude.{◌≡◌, ◌≤◌, drop, length, take};

use gf_core::Gf;

/// A row and the factor that it is multiplied by.
#[derive(Clone, Copy)]
pub struct Multiple<'a> {
    pub factor: Gf,
    pub row: &'a [u8],
}

impl<'a> Multiple<'a> {
    // The same multiple of the first n bytes.
    pub(crate) fn front(&self, n: usize) -> Multiple<'a>
        requires { n ≤ length self.now.row.now }
        ensures factor { result.factor ≡ self.now.factor }
        ensures row { result.row.now ≡ take n self.now.row.now }
    {
        Multiple {
            factor: self.factor,
            row: &self.row[..n],
        }
    }

    // The same multiple of the bytes from place n on.
    pub(crate) fn back(&self, n: usize) -> Multiple<'a>
        requires { n ≤ length self.now.row.now }
        ensures factor { result.factor ≡ self.now.factor }
        ensures row { result.row.now ≡ drop n self.now.row.now }
    {
        Multiple {
            factor: self.factor,
            row: &self.row[n..],
        }
    }
}
