//! The model is handed to a builder once more, state by state, each with the policy's choice alone.
//!
//! The chain of a model is a model, and a builder takes each model that is handed over (mdp_rows, `replay_law`). So it refuses no call for anything
//! but want of memory, and each refusal is answered as that.
ghost use Rattle.std.specs.Prelude.{◌≡◌, ◌<◌, ◌∷◌, [], Ok, Err, IfOk, OnOk, length, true, false};
ghost use Rattle.mdp_spec.specs.{Mdp.{states_of, state_at, choices_at}, Tree.{IsPolicy}};
ghost use Rattle.mdp_rows.specs.{Head.{IsSameHead}, Replay.{no_rewards, with_states}};
ghost use Rattle.mdp_policy.specs.Chain.{with_choice, chain_of, NamesNoChoice};

use crate::error::ChainError;
use mdp_num::{Frac, Memory};
use mdp_rows::{Builder, Model, RowRule, give_choice, give_labels, names_of, zeros_of};
use std::alloc::Global;

/// Gives state `s` with its labels and its choice `c` alone.
fn give_state(
    alloc: Global,
    builder: &mut Builder,
    model: &Model,
    zeros: &[Frac],
    s: u32,
    c: u32,
) -> Result<(), Memory>
    requires state { s < states_of model.now }
    requires choice { c < length (choices_at model.now s) }
    requires names { builder.old.names ≡ model.now.names }
    requires zeros { zeros.now ≡ no_rewards model.now.names }
    ensures given { let states = with_choice (state_at model.now s) c ∷ [] in
        OnOk result (with_states model.now.names model.now.labels states builder.old ≡ Ok builder.new) }
    ensures same { OnOk result (IsSameHead builder.old builder.new) }
{
    let Ok(()) = builder.state(zeros) else {
        return Err(Memory);
    };
    give_labels(builder, model, s)?;
    give_choice(alloc, builder, model, s, c)
}

/// Gives each state with the policy's choice.
fn give_states(
    alloc: Global,
    builder: &mut Builder,
    model: &Model,
    policy: &[u32],
) -> Result<(), Memory>
    requires policy { IsPolicy model.now policy.now }
    requires names { builder.old.names ≡ model.now.names }
    ensures given { OnOk result (with_states model.now.names model.now.labels (chain_of model.now policy.now).states builder.old ≡ Ok builder.new) }
{
    let zeros = zeros_of(alloc, model)?;
    for s in 0..model.states() {
        give_state(alloc, builder, model, &zeros, s, policy[s as usize])?;
    }
    Ok(())
}

/// The chain of a policy.
fn chain_by(alloc: Global, model: &Model, policy: &[u32]) -> Result<Model, Memory>
    requires { IsPolicy model.now policy.now }
    ensures { IfOk result (λ chain. chain ≡ chain_of model.now policy.now) }
{
    model.known();
    let names = names_of(alloc, model)?;
    let mut builder = Builder::new(alloc, model.states(), RowRule::Exact, names)?;
    give_states(alloc, &mut builder, model, policy)?;
    let Ok(chain) = builder.finish() else {
        return Err(Memory);
    };
    Ok(chain)
}

/// Whether each choice is one of its state.
fn takes_choices(model: &Model, policy: &[u32]) -> bool
    requires { length policy.now ≡ states_of model.now }
    ensures all { result ≡ true → IsPolicy model.now policy.now }
    ensures other { result ≡ false → NamesNoChoice model.now policy.now }
{
    for s in 0..model.states() {
        if policy[s as usize] >= model.choices(s) {
            return false;
        }
    }
    true
}

/// The chain of a policy, one choice for each state: the model in which each state keeps only that choice. States, labels and names stay.
/// `NoChoice` where the choice isn't one of some state's.
pub fn chain_of(alloc: Global, model: &Model, policy: &[u32]) -> Result<Model, ChainError>
    requires { length policy.now ≡ states_of model.now }
    ensures chain { IfOk result (λ chain. chain ≡ chain_of model.now policy.now) }
    ensures policy { OnOk result (IsPolicy model.now policy.now) }
    ensures refused { result ≡ Err ChainError.NoChoice → NamesNoChoice model.now policy.now }
{
    if !takes_choices(model, policy) {
        return Err(ChainError::NoChoice);
    }
    Ok(chain_by(alloc, model, policy)?)
}
