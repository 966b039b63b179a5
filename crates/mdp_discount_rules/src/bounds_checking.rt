ghost use Rattle.std.specs.Prelude.{◌≡◌, ◌↔◌};
ghost use Rattle.mdp_spec.specs.Labels.{initial_of};
ghost use Rattle.mdp_discount_rules.specs.BoundsPlain.{plain};
ghost use Rattle.mdp_discount_rules.specs.BoundsCheck.{same_value, is_value, has_bounds, init_check, answer_to, IsAccepted, IsBound};

use crate::answer::{DiscountAnswer, answer_of};
use crate::bounds::DiscountBounds;
use crate::bounds_cert::DiscountBoundsCert;
use crate::bounds_holds::holds_bounds_discount;
use crate::bounds_init::InitialBounds;
use mdp_farkas::{Verdict, init_denied, state_verdict};
use mdp_num::Frac;
use mdp_rows::Model;

/// Whether two values are the same, either of which may be missing.
fn is_same(x: &Option<Frac>, y: &Option<Frac>) -> bool
    ensures { result ≡ same_value x.now y.now }
{
    match (x, y) {
        (Some(x), Some(y)) => x == y,
        (None, None) => true,
        _ => false,
    }
}

/// Whether there is a value of state `s`, and it is this one.
fn is_value(values: &[Option<Frac>], s: u32, value: &Option<Frac>) -> bool
    ensures { result ≡ is_value values.now s value.now }
{
    match values.get(s as usize) {
        Some(found) => is_same(found, value),
        None => false,
    }
}

/// Whether the two values of the initial state are these.
fn has_bounds(init: &InitialBounds, bounds: &DiscountBounds) -> bool
    ensures { result ≡ has_bounds init.now bounds.now.lower.items bounds.now.upper.items }
{
    is_value(&bounds.lower, init.state, &init.lower)
        && is_value(&bounds.upper, init.state, &init.upper)
}

/// Rule 1: the line `init` names the model's one initial state and has its two values; it names none where there isn't exactly one.
fn init_verdict(model: &Model, init: &Option<InitialBounds>, bounds: &DiscountBounds) -> Verdict
    ensures { result ≡ init_check init.now (initial_of model.now) bounds.now.lower.items bounds.now.upper.items }
{
    match (init, model.initial()) {
        (None, None) => Verdict::Yes,
        (None, Some(_)) => init_denied(None),
        (Some(init), initial) => state_verdict(init.state, initial, has_bounds(init, bounds)),
    }
}

/// Holds a certificate of bounds of the discounted reward against a model: the numbers of states, then the reward model, then rule 1 and the rules on
/// values and policy. After yes the claim is true of the model, whoever made the certificate. It takes no memory.
pub fn check_discount_bounds(model: &Model, cert: &DiscountBoundsCert) -> DiscountAnswer
    ensures answer { result ≡ answer_to model.now (plain cert.now) }
    ensures accepted { (result ≡ DiscountAnswer.Yes) ↔ IsAccepted model.now (plain cert.now) }
    ensures bound { result ≡ DiscountAnswer.Yes → IsBound model.now (plain cert.now) }
{
    model.known();
    if cert.bounds.lower.len() != model.states() as usize {
        return DiscountAnswer::Size;
    }
    let Some(reward) = model.reward_named(&cert.name) else {
        return DiscountAnswer::NoReward;
    };
    match init_verdict(model, &cert.init, &cert.bounds) {
        Verdict::Yes => answer_of(holds_bounds_discount(
            model,
            reward,
            cert.dir,
            &cert.factor,
            &cert.bounds,
        )),
        other => answer_of(other),
    }
}
