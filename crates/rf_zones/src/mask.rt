//! Masks of carriers.

ghost use Rattle.std.specs.Prelude.{◌≡◌, ℕ, ◌<◌, ◌&&◌, ◌||◌, ◌==◌, All, true, false};
ghost use Rattle.rf_zones.specs.Masks.{has_bit, has_bits};

/// A set of carriers: bit k stands for carrier k.
pub type Mask = u128;

/// How many carriers there may be.
pub const MAX_CARRIERS: usize = 96;

/// No carrier.
pub fn none() -> Mask
    ensures { (c : ℕ) → has_bit result c ≡ false }
{
    0
}

/// All carriers.
pub fn all() -> Mask
    ensures { (c : ℕ) → c < MAX_CARRIERS → has_bit result c ≡ true }
{
    Mask::MAX
}

/// Whether a carrier, below `MAX_CARRIERS`, is one of a mask's.
#[inline]
#[tactic(auto, unfolding(crate::specs::Masks::has_bit))]
pub fn has(mask: Mask, carrier: usize) -> bool
    requires { carrier < MAX_CARRIERS }
    ensures { result ≡ has_bit mask carrier }
{
    mask >> carrier & 1 == 1
}

/// Whether all of a set of carriers, each below `MAX_CARRIERS`, are a mask's.
pub fn has_all(mask: Mask, set: &[usize]) -> bool
    requires { All (λ c. c < MAX_CARRIERS) set.now }
    ensures { result ≡ has_bits set.now mask }
{
    set.iter().all(|c| has(mask, *c))
}

/// A mask's carriers and one more, below `MAX_CARRIERS`.
pub fn with(mask: Mask, carrier: usize) -> Mask
    requires { carrier < MAX_CARRIERS }
    ensures { (c : ℕ) → has_bit result c ≡ (has_bit mask c || (c == carrier)) }
{
    mask | 1 << carrier
}

/// The carriers that are of both masks.
pub fn both(a: Mask, b: Mask) -> Mask
    ensures { (c : ℕ) → has_bit result c ≡ (has_bit a c && has_bit b c) }
{
    a & b
}

/// The carriers that are of one of two masks.
pub fn either(a: Mask, b: Mask) -> Mask
    ensures { (c : ℕ) → has_bit result c ≡ (has_bit a c || has_bit b c) }
{
    a | b
}
