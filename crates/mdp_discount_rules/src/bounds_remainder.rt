ghost use Rattle.std.specs.Prelude.{◌≡◌, map, pos, unwrap_or};
ghost use Rattle.mdp_math.specs.Rational.{of_int};
ghost use Rattle.mdp_rows.specs.declared.dir.Dir.TheVariants.{Max};
ghost use Rattle.mdp_spec.specs.Bounds.{finite_part};
ghost use Rattle.mdp_bounds.specs.Mean.{exact_best};
ghost use Rattle.mdp_discount_rules.specs.Rules.{magnitude};
ghost use Rattle.mdp_discount_rules.specs.BoundsRules.{greatest_magnitude};

use crate::remainder::magnitude;
use mdp_num::Frac;
use std::cmp::Ordering;

/// The magnitude of a value; a missing one has magnitude 0.
fn magnitude_of(value: Option<Frac>) -> Frac
    ensures { result ≡ magnitude (unwrap_or value (of_int (pos 0))) }
{
    magnitude(&value.unwrap_or(Frac::whole(0)))
}

/// The greatest of a first number and the magnitudes of these values.
fn greatest_from(first: &Frac, values: &[Option<Frac>]) -> Frac
    ensures { result ≡ exact_best Max first.now (map magnitude (finite_part values.now)) }
{
    let mut best = *first;
    for value in values {
        let next = magnitude_of(*value);
        if next.order(&best) == Ordering::Greater {
            best = next;
        }
    }
    best
}

/// The greatest magnitude of the values of both lists that aren't missing, 0 where there is none.
pub fn greatest_bounds_magnitude(lower: &[Option<Frac>], upper: &[Option<Frac>]) -> Frac
    ensures { result ≡ greatest_magnitude lower.now upper.now }
{
    greatest_from(&greatest_from(&Frac::whole(0), lower), upper)
}
