//! The laws of a field, over the definitions of the sum and the product that the contracts of `Gf` cite. An
//! element is a number below 256; a law that holds of all numbers bounds none.

ghost use Rattle.std.specs.Prelude.{◌≡◌, ◌≢◌, ◌<◌, ℕ};
ghost use Rattle.gf_core.specs.Field.{gf_add, gf_mul};

/// Sums and products of elements are elements.
pub fn sums_and_products_are_elements()
    ensures sum { (a b : ℕ) → a < 256 → b < 256 → gf_add a b < 256 }
    ensures product { (a b : ℕ) → a < 256 → b < 256 → gf_mul a b < 256 }
{}

/// The order of the two parts of a sum does not matter.
pub fn sum_is_commutative()
    ensures { (a b : ℕ) → gf_add a b ≡ gf_add b a }
{}

/// The grouping of a sum of three does not matter.
pub fn sum_is_associative()
    ensures { (a b c : ℕ) → gf_add (gf_add a b) c ≡ gf_add a (gf_add b c) }
{}

/// A sum with 0 is the other part.
pub fn zero_is_neutral()
    ensures left { (a : ℕ) → gf_add 0 a ≡ a }
    ensures right { (a : ℕ) → gf_add a 0 ≡ a }
{}

/// Each element is its own negative.
pub fn element_is_its_own_negative()
    ensures { (a : ℕ) → gf_add a a ≡ 0 }
{}

/// The order of the two factors of a product does not matter.
pub fn product_is_commutative()
    ensures { (a b : ℕ) → a < 256 → b < 256 → gf_mul a b ≡ gf_mul b a }
{}

/// The grouping of a product of three does not matter.
pub fn product_is_associative()
    ensures { (a b c : ℕ) → a < 256 → b < 256 → c < 256 → gf_mul (gf_mul a b) c ≡ gf_mul a (gf_mul b c) }
{}

/// Products spread over sums.
pub fn products_spread_over_sums()
    ensures left { (a b c : ℕ) → gf_mul (gf_add a b) c ≡ gf_add (gf_mul a c) (gf_mul b c) }
    ensures right { (a b c : ℕ) → gf_mul a (gf_add b c) ≡ gf_add (gf_mul a b) (gf_mul a c) }
{}

/// A product with 1 is the other factor.
pub fn one_is_neutral()
    ensures left { (a : ℕ) → gf_mul 1 a ≡ a }
    ensures right { (a : ℕ) → a < 256 → gf_mul a 1 ≡ a }
{}

/// Each element but 0 has an inverse, and only one.
pub fn element_has_one_inverse()
    ensures exists { (a : ℕ) → a < 256 → a ≢ 0 → (b : ℕ) × (b < 256) × (gf_mul a b ≡ 1) }
    ensures unique { (a b c : ℕ) → a < 256 → b < 256 → c < 256 → gf_mul a b ≡ 1 → gf_mul a c ≡ 1 → b ≡ c }
{}
