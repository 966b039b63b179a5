//! The terms of fractions as whole numbers.
ghost use Rattle.std.specs.Prelude.{◌≡◌, ◌<◌, ◌^◌, Some, pos, unsigned_abs};
ghost use Rattle.mdp_math.specs.Rational.{ratio};

use mdp_num::Frac;

/// The magnitude of the numerator.
pub fn num_of(x: &Frac) -> u128
    ensures { result ≡ unsigned_abs x.now.num }
{
    x.num().unsigned_abs()
}

/// The denominator.
pub fn den_of(x: &Frac) -> u128
    ensures { result ≡ x.now.den }
{
    x.den().unsigned_abs()
}

/// n/d, where both are in width.
pub fn ratio_of(n: u128, d: u128) -> Option<Frac>
    requires some { 0 < d }
    requires num { n < 2 ^ 127 }
    requires den { d < 2 ^ 127 }
    ensures { result ≡ Some (ratio (pos n) d) }
{
    Frac::try_new(n as i128, d as i128).ok()
}
