ghost use Rattle.std.specs.Prelude.{◌≡◌};
ghost use Rattle.mdp_math.specs.Rational.{le_ℚ};
ghost use Rattle.mdp_bounds.specs.Sum.{stands};

use mdp_num::Frac;
use mdp_rows::Dir;
use std::cmp::Ordering;

/// Whether `left` is at most `right`.
pub fn at_most(left: &Frac, right: &Frac) -> bool
    ensures { result ≡ le_ℚ left.now right.now }
{
    left.order(right) != Ordering::Greater
}

/// Whether a value is at least, or for the least values at most, a sum.
pub fn value_stands(dir: Dir, value: &Frac, sum: &Frac) -> bool
    ensures { result ≡ stands dir value.now sum.now }
{
    match dir {
        Dir::Max => at_most(sum, value),
        Dir::Min => at_most(value, sum),
    }
}
