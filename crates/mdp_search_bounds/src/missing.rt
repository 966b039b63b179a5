ghost use Rattle.std.specs.Prelude.{◌≡◌, length, replicate, None, IfOk};
ghost use Rattle.mdp_spec.specs.Mdp.{states_of};
ghost use Rattle.mdp_discount_rules.specs.BoundsChecks.{IsTrivialDiscount};

use mdp_discount_rules::DiscountBounds;
use mdp_num::{Frac, Memory};
use mdp_rows::Model;
use std::alloc::{AllocError, Global};

/// No value for each state.
fn no_values(alloc: Global, states: u32) -> Result<Vec<Option<Frac>>, AllocError>
    ensures { IfOk result (λ values. values.items ≡ replicate states None) }
{
    vec![in alloc; None; states as usize]
}

/// The bounds of discounted rewards that say nothing: no value at all, the first choice of each state, and the remainder 0. They hold for every
/// model.
pub fn missing_discount(alloc: Global, model: &Model) -> Result<DiscountBounds, Memory>
    ensures trivial { IfOk result (λ bounds. IsTrivialDiscount model.now bounds.lower.items bounds.upper.items bounds.remainder
        bounds.choices.items) }
    ensures lower { IfOk result (λ bounds. length bounds.lower.items ≡ states_of model.now) }
    ensures upper { IfOk result (λ bounds. length bounds.upper.items ≡ states_of model.now) }
    ensures choices { IfOk result (λ bounds. length bounds.choices.items ≡ states_of model.now) }
{
    model.known();
    let states = model.states();
    let lower = no_values(alloc, states)?;
    let upper = no_values(alloc, states)?;
    let choices = vec![in alloc; 0; states as usize]?;
    Ok(DiscountBounds {
        lower,
        upper,
        choices,
        remainder: Frac::whole(0),
    })
}
