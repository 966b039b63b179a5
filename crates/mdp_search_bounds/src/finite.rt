//! Bounds of all states by one number, which no discounted reward passes.

ghost use Rattle.std.specs.Prelude.{◌≡◌, ◌<◌, length};

use crate::extent::extreme;
use mdp_discount_rules::{DiscountBounds, greatest_bounds_magnitude};
use mdp_num::Frac;
use mdp_rows::{Dir, Model};

/// The least whole number that the magnitude of a value doesn't pass. None past 127 bits.
fn above(value: &Frac) -> Option<i128> {
    let magnitude = value.num().checked_abs()?;
    let whole = magnitude.checked_div(value.den())?;
    if whole.checked_mul(value.den())? == magnitude {
        Some(whole)
    } else {
        whole.checked_add(1)
    }
}

/// A number that no discounted reward of the name passes, if there is one in width: the least whole number that the magnitude of no reward passes,
/// over 1 less the factor. Less the factor times itself it is that whole number, so where all states have this value no term of the rules is past
/// width.
fn extent(model: &Model, name: u32, factor: &Frac) -> Option<Frac>
    requires { name < length model.now.names }
{
    let greatest = above(&extreme(model, name, Dir::Max))?;
    let whole = greatest.max(above(&extreme(model, name, Dir::Min))?);
    let rest = factor.den().checked_sub(factor.num())?;
    Frac::try_new(whole.checked_mul(factor.den())?, rest).ok()
}

/// The opposite of a value.
fn opposite(value: &Option<Frac>) -> Option<Frac> {
    match value {
        Some(value) => Some(value.negate()),
        None => None,
    }
}

/// Whether some value isn't missing.
fn has_value(values: &[Option<Frac>]) -> bool {
    for value in values {
        if value.is_some() {
            return true;
        }
    }
    false
}

/// Puts one value in the place of all, where all of them are missing.
fn fill(values: &mut [Option<Frac>], value: &Option<Frac>) {
    if !has_value(values) {
        for place in 0..values.len() {
            values[place] = *value;
        }
    }
}

/// Bounds of these values, with one number for all states in the place of lower values, and of upper ones, that are all missing.
pub(crate) fn finite_bounds(
    model: &Model,
    name: u32,
    factor: &Frac,
    bounds: DiscountBounds,
) -> DiscountBounds
    requires name { name < length model.now.names }
    ensures lower { length result.lower.items ≡ length bounds.lower.items }
    ensures upper { length result.upper.items ≡ length bounds.upper.items }
    ensures choices { result.choices.items ≡ bounds.choices.items }
{
    let most = extent(model, name, factor);
    let mut finite = bounds;
    fill(&mut finite.lower, &opposite(&most));
    fill(&mut finite.upper, &most);
    finite.remainder = greatest_bounds_magnitude(&finite.lower, &finite.upper);
    finite
}
