ghost use Rattle.std.specs.Prelude.{◌≡◌, ◌≢◌, ◌<◌, ℕ};
ghost use Rattle.gf_core.specs.Field.{gf_add, gf_mul, double};

use crate::tables::{logarithm_of, power_of_x};
use std::marker::Model;

/// One element of GF(256), kept as its byte. Bit i of the byte is the coefficient of x^i.
#[derive(Clone, Copy, Debug, PartialEq, Eq, Hash)]
pub struct Gf {
    byte: u8,
}

impl Model for Gf {
    ghost use Rattle.std.specs.Prelude.{ℕ};

    ghost Value = { ℕ };

    ghost view = { λ element. element.byte };

    ghost inverse = { λ byte. record { byte = byte } };
}

// An element times x.
fn double_of(byte: u8) -> u8
    ensures { result ≡ double byte }
{
    let shifted = byte.wrapping_mul(2);
    if (byte >> 7) & 1 == 1 {
        shifted ^ 0x1D
    } else {
        shifted
    }
}

// The two constants are these bytes: no clause speaks of a constant, so the check evaluates them here.
const _: () = prove!(Gf::ZERO.byte == 0);

const _: () = prove!(Gf::ONE.byte == 1);

impl Gf {
    /// The element 0.
    pub const ZERO: Gf = Gf { byte: 0 };

    /// The element 1.
    pub const ONE: Gf = Gf { byte: 1 };

    /// The element of this byte.
    pub fn new(byte: u8) -> Gf
        ensures { result ≡ byte }
    {
        Gf { byte }
    }

    /// The byte of this element.
    pub fn byte(self) -> u8
        ensures { result ≡ self }
    {
        self.byte
    }

    /// The sum, which is the exclusive or of the bytes. Each element is its own negative.
    pub fn add(self, other: Gf) -> Gf
        ensures { result ≡ gf_add self other }
    {
        Gf {
            byte: self.byte ^ other.byte,
        }
    }

    /// The product, by shifts and exclusive ors.
    pub fn mul_bits(self, other: Gf) -> Gf
        ensures { result ≡ gf_mul self other }
    {
        let mut product = 0;
        let mut power = other.byte;
        for i in 0..8u32 {
            if (self.byte >> i) & 1 == 1 {
                product ^= power;
            }
            power = double_of(power);
        }
        Gf { byte: product }
    }

    /// The product, by tables of powers and logarithms.
    pub fn mul(self, other: Gf) -> Gf
        ensures { result ≡ gf_mul self other }
    {
        if self.byte == 0 || other.byte == 0 {
            return Gf::ZERO;
        }
        let exponent = logarithm_of(self.byte) as usize + logarithm_of(other.byte) as usize;
        Gf {
            byte: power_of_x(exponent),
        }
    }

    /// The one element whose product with this one is 1.
    pub fn inv(self) -> Gf
        requires { self ≢ 0 }
        ensures { gf_mul self result ≡ 1 }
    {
        Gf {
            byte: power_of_x(255 - logarithm_of(self.byte) as usize),
        }
    }

    /// The product of this element with the inverse of the other.
    pub fn div(self, other: Gf) -> Gf
        requires { other ≢ 0 }
        ensures product { (inverse : ℕ) → inverse < 256 → gf_mul other inverse ≡ 1 → result ≡ gf_mul self inverse }
        ensures quotient { gf_mul result other ≡ self }
    {
        self.mul(other.inv())
    }
}
