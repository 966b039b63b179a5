ghost use Rattle.std.specs.Prelude.{◌≡◌, ◌↔◌};
ghost use Rattle.mdp_spec.specs.Labels.{initial_of};
ghost use Rattle.mdp_discount_rules.specs.{Plain.{plain}, Check.{init_check, answer_to, IsAccepted, IsBound}};

use crate::answer::{DiscountAnswer, answer_of};
use crate::cert::DiscountCert;
use crate::holds::holds_discount;
use mdp_farkas::{Verdict, init_denied, is_value, state_verdict};
use mdp_num::Frac;
use mdp_rows::Model;
use mdp_text::Init;

/// Rule 1: the line `init` names the model's one initial state and has its value; it names none where there isn't exactly one.
fn init_verdict(model: &Model, init: &Init, values: &[Frac]) -> Verdict
    ensures { result ≡ init_check init.now (initial_of model.now) values.now }
{
    match (init, model.initial()) {
        (Init::Missing, None) => Verdict::Yes,
        (Init::Missing, Some(_)) => init_denied(None),
        (Init::Finite(state, value), initial) => {
            state_verdict(*state, initial, is_value(values, *state, value))
        }
        (Init::Infinite(state), _) => init_denied(Some(*state)),
        (Init::Start(state), _) => init_denied(Some(*state)),
    }
}

/// Holds a certificate of the discounted reward against a model: the numbers of states, then the reward model, then rule 1 and the rules on values
/// and policy. After yes the claim is true of the model, whoever made the certificate. It takes no memory.
pub fn check_discount(model: &Model, cert: &DiscountCert) -> DiscountAnswer
    ensures answer { result ≡ answer_to model.now (plain cert.now) }
    ensures accepted { (result ≡ DiscountAnswer.Yes) ↔ IsAccepted model.now (plain cert.now) }
    ensures bound { result ≡ DiscountAnswer.Yes → IsBound model.now (plain cert.now) }
{
    model.known();
    if cert.values.len() != model.states() as usize {
        return DiscountAnswer::Size;
    }
    let Some(reward) = model.reward_named(&cert.name) else {
        return DiscountAnswer::NoReward;
    };
    match init_verdict(model, &cert.init, &cert.values) {
        Verdict::Yes => answer_of(holds_discount(model, reward, cert)),
        other => answer_of(other),
    }
}
