ghost use Rattle.std.specs.{Prelude.{◌≡◌, map}, Result.{result_ok}};
ghost use Rattle.mdp_farkas.specs.Spread.{written_best};
ghost use Rattle.mdp_rows.specs.declared.dir.Dir.TheVariants.{Max};
ghost use Rattle.mdp_discount_rules.specs.{Rules.{magnitude}, Checks.{written_greatest}};

use mdp_num::{Frac, Wide};
use std::cmp::Ordering;

/// The magnitude of a number.
pub(crate) fn magnitude(number: &Frac) -> Frac
    ensures { result ≡ magnitude number.now }
{
    if number.sign() < 0 {
        number.negate()
    } else {
        *number
    }
}

/// The greatest of a first number and the magnitudes of these, each compared with the greatest before it.
fn greatest_from(first: &Frac, numbers: &[Frac]) -> Result<Frac, Wide>
    ensures { result_ok result ≡ written_best Max first.now (map magnitude numbers.now) }
{
    let mut best = *first;
    for number in numbers {
        let next = magnitude(number);
        if next.compare(&best)? == Ordering::Greater {
            best = next;
        }
    }
    Ok(best)
}

/// The greatest magnitude of the numbers, and 0 of none. `Wide` where a written term is past width.
pub fn greatest_magnitude(numbers: &[Frac]) -> Result<Frac, Wide>
    ensures { result_ok result ≡ written_greatest numbers.now }
{
    match numbers.split_first() {
        Some((first, others)) => greatest_from(&magnitude(first), others),
        None => Ok(Frac::whole(0)),
    }
}
