ghost use Rattle.std.specs.Prelude.{◌≡◌};
ghost use Rattle.mdp_cert.specs.{Cert.{plain_body}, Claims.{reward_same}};
ghost use Rattle.mdp_check.specs.Initial.{init_check, has_value, is_subsystem, start_of, is_reward};
ghost use Rattle.mdp_farkas.specs.Initial.{init_fault, state_check, is_value};
ghost use Rattle.mdp_spec.specs.Labels.{initial_of};

use mdp_cert::{Body, Init};
use mdp_farkas::{Verdict, init_denied, is_value, state_verdict};
use mdp_num::Frac;
use mdp_rows::Model;

/// Whether two values are the same; a value of none is infinite.
fn is_same(x: &Option<Frac>, y: &Option<Frac>) -> bool
    ensures { result ≡ reward_same x.now y.now }
{
    match (x, y) {
        (Some(x), Some(y)) => x == y,
        (None, None) => true,
        _ => false,
    }
}

/// Whether the value of state `s`, which may be infinite, is this one.
pub(crate) fn is_reward(values: &[Option<Frac>], s: u32, value: &Option<Frac>) -> bool
    ensures { result ≡ is_reward values.now s value.now }
{
    match values.get(s as usize) {
        Some(found) => is_same(found, value),
        None => false,
    }
}

/// Whether the value of state `s` in a body is this one, or infinite where there is none; of mean payoffs the gain is the value.
fn has_value(body: &Body, s: u32, value: &Option<Frac>) -> bool
    ensures { result ≡ has_value (plain_body body.now) s value.now }
{
    match (body, value) {
        (Body::Upper(cert), Some(value)) => is_value(&cert.values, s, value),
        (Body::Reach(cert), Some(value)) => is_value(&cert.values, s, value),
        (Body::Reward(cert), value) => is_reward(&cert.values, s, value),
        (Body::Mean(cert), Some(value)) => is_value(&cert.gains, s, value),
        (Body::Flow(_), _) | (Body::Floor(_), _) | (_, None) => false,
    }
}

/// Whether the body is one of a subsystem, which needs an initial state and has no value of it.
fn is_subsystem(body: &Body) -> bool
    ensures { result ≡ is_subsystem (plain_body body.now) }
{
    matches!(body, Body::Flow(_) | Body::Floor(_))
}

/// The state of the line `init`; 0 where it has none.
pub(crate) fn start_of(init: &Init) -> u32
    ensures { result ≡ start_of init.now }
{
    match init {
        Init::Missing => 0,
        Init::Finite(state, _) => *state,
        Init::Infinite(state) => *state,
        Init::Start(state) => *state,
    }
}

/// Rule 1: the line `init` names the model's one initial state and has its value; it names none where there isn't exactly one.
/// For a subsystem there is exactly one, and the line has no value.
pub(crate) fn init_verdict(model: &Model, init: &Init, body: &Body) -> Verdict
    ensures { result ≡ init_check init.now (initial_of model.now) (plain_body body.now) }
{
    match (init, model.initial()) {
        (Init::Missing, None) if is_subsystem(body) => init_denied(None),
        (Init::Missing, None) => Verdict::Yes,
        (Init::Missing, Some(_)) => init_denied(None),
        (Init::Finite(state, value), initial) => {
            state_verdict(*state, initial, has_value(body, *state, &Some(*value)))
        }
        (Init::Infinite(state), initial) => {
            state_verdict(*state, initial, has_value(body, *state, &None))
        }
        (Init::Start(state), initial) => state_verdict(*state, initial, is_subsystem(body)),
    }
}
