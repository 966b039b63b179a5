ghost use Rattle.std.specs.{Prelude.{◌≡◌}, Result.{result_ok}};
ghost use Rattle.mdp_farkas.specs.Spread.{written_best, written_extreme, written_width, written_spread};

use mdp_num::{Frac, Wide};
use mdp_rows::Dir;

/// The greatest, or the least, of a first number and these, each compared with the best before it. `Wide` where a written term is past
/// width.
fn best_from(dir: Dir, first: &Frac, numbers: &[Frac]) -> Result<Frac, Wide>
    ensures { result_ok result ≡ written_best dir first.now numbers.now }
{
    let mut best = *first;
    for number in numbers {
        if dir.is_better(number.compare(&best)?) {
            best = *number;
        }
    }
    Ok(best)
}

/// The greatest, or the least, of the numbers, and 0 of none.
fn extreme(dir: Dir, numbers: &[Frac]) -> Result<Frac, Wide>
    ensures { result_ok result ≡ written_extreme dir numbers.now }
{
    match numbers.split_first() {
        Some((first, others)) => best_from(dir, first, others),
        None => Ok(Frac::whole(0)),
    }
}

/// The greatest of the numbers less the least.
fn width_of(numbers: &[Frac]) -> Result<Frac, Wide>
    ensures { result_ok result ≡ written_width numbers.now }
{
    let high = extreme(Dir::Max, numbers)?;
    let low = extreme(Dir::Min, numbers)?;
    high.sub(&low)
}

/// The spread of bounds and biases: the greater of their ranges, each the greatest value less the least. `Wide` where a written term of one
/// of these operations is past width.
pub fn spread_of(bound: &[Frac], bias: &[Frac]) -> Result<Frac, Wide>
    ensures { result_ok result ≡ written_spread bound.now bias.now }
{
    let first = width_of(bound)?;
    let second = width_of(bias)?;
    best_from(Dir::Max, &first, &[second])
}
