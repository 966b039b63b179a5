ghost use Rattle.std.specs.Prelude.{◌≡◌, Some, length};
ghost use Rattle.mdp_spec.specs.{Bounds.{reward_at}, Labels.{initial_of}, Mdp.{states_of, value_at}};
ghost use Rattle.mdp_text.specs.Heads.{init_by};

use crate::heads::init_of;
use crate::init::Init;
use mdp_num::Frac;
use mdp_rows::Model;

/// What the line `init` says of a model: its one initial state with that state's value, or that there isn't exactly one. There is one value for each
/// state.
pub fn init_with(model: &Model, values: &[Frac]) -> Init
    requires { length values.now ≡ states_of model.now }
    ensures { result ≡ init_by (initial_of model.now) (λ s. Some (value_at values.now s)) }
{
    match model.initial() {
        Some(state) => init_of(state, Some(values[state as usize])),
        None => Init::Missing,
    }
}

/// The same of rewards, which are infinite where there is no number.
pub fn init_with_rewards(model: &Model, values: &[Option<Frac>]) -> Init
    requires { length values.now ≡ states_of model.now }
    ensures { result ≡ init_by (initial_of model.now) (reward_at values.now) }
{
    match model.initial() {
        Some(state) => init_of(state, values[state as usize]),
        None => Init::Missing,
    }
}
