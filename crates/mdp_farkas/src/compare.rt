ghost use Rattle.std.specs.{Prelude.{◌≡◌}, Result.{result_ok}};
ghost use Rattle.mdp_farkas.specs.Compare.{is_at_least, is_at_most, is_equal};

use mdp_num::{Frac, Wide};
use std::cmp::Ordering;

/// Whether `left` is at least `right`.
pub fn at_least(left: &Frac, right: &Frac) -> Result<bool, Wide>
    ensures { result_ok result ≡ is_at_least left.now right.now }
{
    Ok(left.compare(right)? != Ordering::Less)
}

/// Whether `left` is at most `right`.
pub fn at_most(left: &Frac, right: &Frac) -> Result<bool, Wide>
    ensures { result_ok result ≡ is_at_most left.now right.now }
{
    Ok(left.compare(right)? != Ordering::Greater)
}

/// Whether `left` is `right`.
pub fn equal(left: &Frac, right: &Frac) -> Result<bool, Wide>
    ensures { result_ok result ≡ is_equal left.now right.now }
{
    Ok(left.compare(right)? == Ordering::Equal)
}
