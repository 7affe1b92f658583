ghost use Rattle.std.specs.Prelude.{◌≡◌, ℕ, ◌++◌, map, replicate};
ghost use Rattle.gf_core.specs.Field.{double, gf_mul};
ghost use Rattle.gf_rows.specs.HalfProducts.{AreProducts, four_sums};

use gf_core::Gf;
use std::simd::prelude::*;

// The products of one factor with each low half of a byte, and with each high half, each table twice.
#[derive(Clone, Copy)]
pub(crate) struct Halves {
    low: u8x32,
    high: u8x32,
}

// Lanes of ones where bit 0 of the place is set, and where bits 1, 2 and 3 are.
const BIT_0: [u8; 32] = [
    0, 255, 0, 255, 0, 255, 0, 255, 0, 255, 0, 255, 0, 255, 0, 255, 0, 255, 0, 255, 0, 255, 0, 255,
    0, 255, 0, 255, 0, 255, 0, 255,
];

const BIT_1: [u8; 32] = [
    0, 0, 255, 255, 0, 0, 255, 255, 0, 0, 255, 255, 0, 0, 255, 255, 0, 0, 255, 255, 0, 0, 255, 255,
    0, 0, 255, 255, 0, 0, 255, 255,
];

const BIT_2: [u8; 32] = [
    0, 0, 0, 0, 255, 255, 255, 255, 0, 0, 0, 0, 255, 255, 255, 255, 0, 0, 0, 0, 255, 255, 255, 255,
    0, 0, 0, 0, 255, 255, 255, 255,
];

const BIT_3: [u8; 32] = [
    0, 0, 0, 0, 0, 0, 0, 0, 255, 255, 255, 255, 255, 255, 255, 255, 0, 0, 0, 0, 0, 0, 0, 0, 255,
    255, 255, 255, 255, 255, 255, 255,
];

// Each lane times x.
#[inline(always)]
fn doubled(v: u8x32) -> u8x32
    ensures { result ≡ map double v }
{
    let reduction = v
        .simd_ge(u8x32::splat(128))
        .select(u8x32::splat(0x1D), u8x32::splat(0));
    (v + v) ^ reduction
}

// The 16 sums of some of four elements, twice, where each vector has one element in all its lanes. Bit i of the place
// says whether element i is in the sum.
#[inline(always)]
fn sums_of_four(a: u8x32, b: u8x32, c: u8x32, d: u8x32) -> u8x32
    ensures { (w x y z : ℕ) → a ≡ replicate 32 w → b ≡ replicate 32 x → c ≡ replicate 32 y → d ≡ replicate 32 z →
        result ≡ four_sums w x y z ++ four_sums w x y z }
{
    (a & u8x32::from_array(BIT_0))
        ^ (b & u8x32::from_array(BIT_1))
        ^ (c & u8x32::from_array(BIT_2))
        ^ (d & u8x32::from_array(BIT_3))
}

impl Halves {
    // Both tables of a factor.
    #[inline(always)]
    pub(crate) fn of(factor: Gf) -> Halves
        ensures { AreProducts factor result.low result.high }
    {
        let by_1 = u8x32::splat(factor.byte());
        let by_2 = doubled(by_1);
        let by_4 = doubled(by_2);
        let by_8 = doubled(by_4);
        let by_16 = doubled(by_8);
        let by_32 = doubled(by_16);
        let by_64 = doubled(by_32);
        let by_128 = doubled(by_64);
        let low = sums_of_four(by_1, by_2, by_4, by_8);
        let high = sums_of_four(by_16, by_32, by_64, by_128);
        Halves { low, high }
    }

    // The factor times each lane.
    #[inline(always)]
    pub(crate) fn times(self, v: u8x32) -> u8x32
        ensures { (factor : ℕ) → AreProducts factor self.low self.high → result ≡ map (gf_mul factor) v }
    {
        self.low.swizzle_dyn_within::<16>(v & u8x32::splat(15))
            ^ self.high.swizzle_dyn_within::<16>(v >> u8x32::splat(4))
    }
}
