ghost use Rattle.std.specs.{Prelude.{◌≡◌}, Result.{result_ok}};
ghost use Rattle.mdp_math.specs.Written.{cmp_ℚ};
ghost use Rattle.mdp_rows.specs.Better.{is_better};
ghost use Rattle.mdp_bounds.specs.Mean.{exact_best, exact_extreme, told_width, told_spread};

use crate::sum::plain_sum;
use mdp_num::{Frac, Wide};
use mdp_rows::Dir;

/// Whether a number is better than the best one: greater, or less.
fn improves(dir: Dir, number: &Frac, best: &Frac) -> bool
    ensures { result ≡ is_better dir (cmp_ℚ number.now best.now) }
{
    dir.is_better(number.order(best))
}

/// The greatest, or the least, of a first number and these.
fn best_from(dir: Dir, first: &Frac, numbers: &[Frac]) -> Frac
    ensures { result ≡ exact_best dir first.now numbers.now }
{
    let mut best = *first;
    for number in numbers {
        if improves(dir, number, &best) {
            best = *number;
        }
    }
    best
}

/// The greatest, or the least, of the numbers, and 0 of none.
fn extreme(dir: Dir, numbers: &[Frac]) -> Frac
    ensures { result ≡ exact_extreme dir numbers.now }
{
    match numbers.split_first() {
        Some((first, others)) => best_from(dir, first, others),
        None => Frac::whole(0),
    }
}

/// The greatest of the numbers less the least.
fn width_of(numbers: &[Frac]) -> Result<Frac, Wide>
    ensures { result_ok result ≡ told_width numbers.now }
{
    plain_sum(
        &extreme(Dir::Max, numbers),
        &extreme(Dir::Min, numbers).negate(),
    )
}

/// The spread of bounds and biases: the greater of their ranges, each the greatest value less the least. `Wide` where one of these
/// differences is past width.
pub fn spread_of(bound: &[Frac], bias: &[Frac]) -> Result<Frac, Wide>
    ensures { result_ok result ≡ told_spread bound.now bias.now }
{
    let first = width_of(bound)?;
    let second = width_of(bias)?;
    Ok(best_from(Dir::Max, &first, &[second]))
}
