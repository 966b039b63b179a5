ghost use Rattle.std.specs.Prelude.{◌≡◌, ◌⊎◌, ◌==◌, length, option_copied, true, false, Ok, Err, IfOk, IfSome};
ghost use Rattle.mdp_command.specs.{Prelude.{no_memory, said}, Read.{is_of_model}};
ghost use Rattle.mdp_spec.specs.{Mdp.{states_of}, Tree.{IsPolicy}};
ghost use Rattle.mdp_policy.specs.{Answer.{plain}, Spelling.{value_text}};
ghost use Rattle.mdp_command_policy.specs.{Due.{TakesNoChoice, IsValueDue, IsSizeDue, IsPolicyDue}, Shown.{IsPolicyPrinted}};

use crate::laws::policy_law;
use crate::marking::{Marked, marks_of};
use mdp_cert::CertError;
use mdp_job::Refusal;
use mdp_policy::{PolicyValue, read_policy, value_of, write_value};
use mdp_rows::Model;
use mdp_wide::SolveError;
use std::alloc::Global;

/// Whether each choice is one of its state.
fn takes_choices(model: &Model, policy: &[u32]) -> bool
    requires { length policy.now ≡ states_of model.now }
    ensures all { result ≡ true → IsPolicy model.now policy.now }
    ensures other { result ≡ false → TakesNoChoice model.now policy.now }
{
    for s in 0..model.states() {
        if policy[s as usize] >= model.choices(s) {
            return false;
        }
    }
    true
}

/// The text of a policy's value.
fn text_of(
    alloc: Global,
    model: &Model,
    stay: Option<&[u8]>,
    label: &[u8],
    value: &PolicyValue,
) -> Result<Vec<u8>, Refusal>
    requires { length value.now.values.items ≡ states_of model.now }
    ensures { (said result ≡ Err no_memory) ⊎ (said result ≡ Ok (value_text (option_copied stay.entry) label.now model.now (plain value.now))) }
{
    let mut text = Vec::new(alloc);
    match write_value(model, stay, label, value, &mut text) {
        Ok(()) => Ok(text),
        Err(_) => Err(Refusal::Memory),
    }
}

/// The text of the value of a policy with the states that the labels name.
fn value_at(
    alloc: Global,
    model: &Model,
    stay: Option<&[u8]>,
    label: &[u8],
    marks: &Marked,
    policy: &[u32],
) -> Result<Vec<u8>, Refusal>
    requires stays { IfSome marks.now.stays (λ stays. length stays ≡ states_of model.now) }
    requires goals { length marks.now.goals ≡ states_of model.now }
    requires policy { IsPolicy model.now policy.now }
    ensures due { (said result ≡ Err no_memory) ⊎ IsValueDue (option_copied stay.entry) label.now model.now policy.now marks.now (said result) }
    ensures not_of_model { is_of_model (said result) ≡ false }
{
    match value_of(alloc, model, marks.stays.as_ref(), &marks.goals, policy) {
        Ok(value) => text_of(alloc, model, stay, label, &value),
        Err(SolveError::TooWide(wide)) => Err(Refusal::TooWide(wide)),
        Err(SolveError::Memory) => Err(Refusal::Memory),
    }
}

/// The text of the value of a policy, or its refusal: the number of states first, then the labels, then the choices.
fn of_policy(
    alloc: Global,
    model: &Model,
    stay: Option<&[u8]>,
    label: &[u8],
    policy: &[u32],
) -> Result<Vec<u8>, Refusal>
    ensures due { (said result ≡ Err no_memory) ⊎ IsSizeDue (option_copied stay.entry) label.now model.now policy.now
        (length policy.now == states_of model.now) (said result) }
    ensures not_of_model { is_of_model (said result) ≡ false }
{
    if policy.len() != model.states() as usize {
        return Err(Refusal::QuerySize);
    }
    let marks = marks_of(alloc, model, stay, label)?;
    if !takes_choices(model, policy) {
        return Err(Refusal::QueryChoice);
    }
    value_at(alloc, model, stay, label, &marks, policy)
}

/// The same of bytes that are a policy's text.
fn of_text(
    alloc: Global,
    model: &Model,
    stay: Option<&[u8]>,
    label: &[u8],
    bytes: &[u8],
) -> Result<Vec<u8>, Refusal>
    ensures due { (said result ≡ Err no_memory) ⊎ IsPolicyDue (option_copied stay.entry) label.now model.now bytes.now (said result) }
    ensures not_of_model { is_of_model (said result) ≡ false }
{
    match read_policy(alloc, bytes) {
        Ok(policy) => of_policy(alloc, model, stay, label, &policy),
        Err(CertError::At { line, kind }) => Err(Refusal::PolicyText { line, kind }),
        Err(CertError::Memory) => Err(Refusal::Memory),
    }
}

/// Judges the text of a policy, and gives the probabilities with which it comes to a state with the label, by way of states with the label `stay`
/// alone where it is given, and the first changes that raise and that lower one.
pub fn policy_query(
    alloc: Global,
    model: &Model,
    stay: Option<&[u8]>,
    label: &[u8],
    bytes: &[u8],
) -> Result<Vec<u8>, Refusal>
    ensures due { (said result ≡ Err no_memory) ⊎ IsPolicyDue (option_copied stay.entry) label.now model.now bytes.now (said result) }
    ensures printed { IfOk (said result) (IsPolicyPrinted (option_copied stay.entry) label.now model.now bytes.now) }
    ensures not_of_model { is_of_model (said result) ≡ false }
{
    policy_law();
    model.known();
    of_text(alloc, model, stay, label, bytes)
}
