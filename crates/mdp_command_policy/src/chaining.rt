ghost use Rattle.std.specs.Prelude.{◌≡◌, ◌⊎◌, ◌==◌, length, false, Ok, Err, IfOk};
ghost use Rattle.mdp_command.specs.{Prelude.{no_memory, said}, Read.{is_of_model}};
ghost use Rattle.mdp_spec.specs.Mdp.{states_of};
ghost use Rattle.mdp_drn.specs.Writing.{text_of};
ghost use Rattle.mdp_command_policy.specs.{ChainDue.{IsSizeDue, IsChainDue}, ChainShown.{IsChainPrinted}};

use crate::chain_laws::command_chain_law;
use crate::choices::choices_in;
use mdp_drn::write;
use mdp_job::Refusal;
use mdp_policy::{ChainError, chain_of};
use mdp_rows::Model;
use std::alloc::Global;

/// The text of a model.
fn text_of(alloc: Global, model: &Model) -> Result<Vec<u8>, Refusal>
    ensures { (said result ≡ Err no_memory) ⊎ (said result ≡ Ok (text_of model.now)) }
{
    let mut text = Vec::new(alloc);
    match write(model, &mut text) {
        Ok(()) => Ok(text),
        Err(_) => Err(Refusal::Memory),
    }
}

/// The text of a policy's chain, or its refusal: the number of states first, then the choices.
fn of_policy(alloc: Global, model: &Model, policy: &[u32]) -> Result<Vec<u8>, Refusal>
    ensures due { (said result ≡ Err no_memory) ⊎ IsSizeDue model.now policy.now (length policy.now == states_of model.now) (said result) }
    ensures not_of_model { is_of_model (said result) ≡ false }
{
    if policy.len() != model.states() as usize {
        return Err(Refusal::QuerySize);
    }
    match chain_of(alloc, model, policy) {
        Ok(chain) => text_of(alloc, &chain),
        Err(ChainError::NoChoice) => Err(Refusal::QueryChoice),
        Err(ChainError::Memory) => Err(Refusal::Memory),
    }
}

/// The same of bytes that name choices.
fn of_text(alloc: Global, model: &Model, bytes: &[u8]) -> Result<Vec<u8>, Refusal>
    ensures due { (said result ≡ Err no_memory) ⊎ IsChainDue model.now bytes.now (said result) }
    ensures not_of_model { is_of_model (said result) ≡ false }
{
    match choices_in(alloc, bytes) {
        Ok(policy) => of_policy(alloc, model, &policy),
        Err(refusal) => Err(refusal),
    }
}

/// Judges a text, which is a policy's or a certificate's that names one, and gives the text of the policy's chain: the model in which each state
/// keeps only the policy's choice.
pub fn chain_query(alloc: Global, model: &Model, bytes: &[u8]) -> Result<Vec<u8>, Refusal>
    ensures due { (said result ≡ Err no_memory) ⊎ IsChainDue model.now bytes.now (said result) }
    ensures printed { IfOk (said result) (IsChainPrinted model.now bytes.now) }
    ensures not_of_model { is_of_model (said result) ≡ false }
{
    command_chain_law();
    model.known();
    of_text(alloc, model, bytes)
}
