//! Values of fractions in floats.

ghost use Rattle.std.specs.Prelude.{◌<◌, length};
ghost use Rattle.mdp_spec.specs.Mdp.{states_of, choices_at};

use mdp_num::Frac;
use mdp_refinement::{item_at, to_float};
use mdp_rows::Model;
use std::alloc::{AllocError, Global};

/// A float near to a fraction.
pub(crate) fn float_of(value: &Frac) -> f64 {
    to_float(value.num()) / to_float(value.den())
}

/// Floats near to fractions.
pub(crate) fn floats_of(alloc: Global, values: &[Frac]) -> Result<Vec<f64>, AllocError> {
    values.iter().map(|value| float_of(value)).collect(alloc)
}

/// The float at a place, 0 outside.
pub(crate) fn float_at(values: &[f64], place: u32) -> f64 {
    item_at(values, place as usize, 0.0)
}

/// What the row of choice `c` at state `s` comes to by the values of its targets.
pub(crate) fn worth(model: &Model, values: &[f64], s: u32, c: u32) -> f64
    requires state { s < states_of model.now }
    requires choice { c < length (choices_at model.now s) }
{
    let row = model.row(s, c);
    let mut total = 0.0;
    for place in 0..row.targets.len().min(row.probs.len()) {
        total += float_of(&row.probs[place]) * float_at(values, row.targets[place]);
    }
    total
}

/// The first choice of state `s` whose row comes to least.
pub(crate) fn least_choice(model: &Model, values: &[f64], s: u32) -> u32
    requires { s < states_of model.now }
{
    let mut best = 0;
    let mut least = f64::INFINITY;
    for c in 0..model.choices(s) {
        let total = worth(model, values, s, c);
        if total < least {
            best = c;
            least = total;
        }
    }
    best
}
