ghost use Rattle.std.specs.Prelude.{◌≡◌};
ghost use Rattle.mdp_cert.specs.BoundsCert.{plain_body};
ghost use Rattle.mdp_check.specs.BoundsInitial.{bounds_init_check, has_bounds};
ghost use Rattle.mdp_spec.specs.Labels.{initial_of};

use crate::initial::is_reward;
use mdp_cert::{BoundsBody, BoundsInit};
use mdp_farkas::{Verdict, init_denied, is_value, state_verdict};
use mdp_num::Frac;
use mdp_rows::Model;

/// Whether the lower and the upper value of state `s` in a body are these, which are infinite where there is none; of mean payoffs the gains are the
/// values.
fn has_bounds(body: &BoundsBody, s: u32, lower: &Option<Frac>, upper: &Option<Frac>) -> bool
    ensures { result ≡ has_bounds (plain_body body.now) s lower.now upper.now }
{
    match (body, lower, upper) {
        (BoundsBody::Reach(cert), Some(lower), Some(upper)) => {
            is_value(&cert.lower, s, lower) && is_value(&cert.upper, s, upper)
        }
        (BoundsBody::Reward(cert), lower, upper) => {
            is_reward(&cert.lower, s, lower) && is_reward(&cert.upper, s, upper)
        }
        (BoundsBody::Mean(cert), Some(lower), Some(upper)) => {
            is_value(&cert.lower, s, lower) && is_value(&cert.upper, s, upper)
        }
        _ => false,
    }
}

/// Rule 1: the line `init` names the model's one initial state and has its lower and its upper value; it names none where there isn't exactly one.
pub(crate) fn bounds_init_verdict(model: &Model, init: &BoundsInit, body: &BoundsBody) -> Verdict
    ensures { result ≡ bounds_init_check init.now (initial_of model.now) (plain_body body.now) }
{
    match (init, model.initial()) {
        (BoundsInit::Missing, None) => Verdict::Yes,
        (BoundsInit::Missing, Some(_)) => init_denied(None),
        (BoundsInit::Between(state, lower, upper), initial) => {
            state_verdict(*state, initial, has_bounds(body, *state, lower, upper))
        }
    }
}
