ghost use Rattle.std.specs.Prelude.{◌≡◌, ◌⊎◌, length, option_copied, false, Err, IfOk, IfErr, IfSome};
ghost use Rattle.mdp_command.specs.{Prelude.{no_memory}, Said.{plain_error}, Read.{is_of_model}};
ghost use Rattle.mdp_spec.specs.Mdp.{states_of};
ghost use Rattle.mdp_command_policy.specs.Due.{states_with, states_on_way, marks_due};

use mdp_job::Refusal;
use mdp_rows::{Marks, Model};
use std::alloc::Global;

/// The states on the way to a goal, where they are asked for, and the goals.
#[derive(Drop)]
pub(crate) struct Marked {
    pub stays: Option<Marks>,
    pub goals: Marks,
}

/// The states with this label.
fn states_with(alloc: Global, model: &Model, label: &[u8]) -> Result<Marks, Refusal>
    ensures is { (plain_error result ≡ Err no_memory) ⊎ (plain_error result ≡ states_with model.now label.now) }
    ensures each { IfOk result (λ marks. length marks ≡ states_of model.now) }
    ensures not_of_model { IfErr (plain_error result) (λ e. is_of_model (Err e) ≡ false) }
{
    let Some(place) = model.label(label) else {
        return Err(Refusal::QueryLabel);
    };
    match model.marks_of(alloc, place) {
        Ok(marks) => Ok(marks),
        Err(_) => Err(Refusal::Memory),
    }
}

/// The states on the way, where a label is given for them.
fn states_on_way(
    alloc: Global,
    model: &Model,
    stay: Option<&[u8]>,
) -> Result<Option<Marks>, Refusal>
    ensures is { (plain_error result ≡ Err no_memory) ⊎ (plain_error result ≡ states_on_way model.now (option_copied stay.entry)) }
    ensures each { IfOk result (λ stays. IfSome stays (λ marks. length marks ≡ states_of model.now)) }
    ensures not_of_model { IfErr (plain_error result) (λ e. is_of_model (Err e) ≡ false) }
{
    let Some(label) = stay else {
        return Ok(None);
    };
    Ok(Some(states_with(alloc, model, label)?))
}

/// The states that the labels name, that of the way first.
pub(crate) fn marks_of(
    alloc: Global,
    model: &Model,
    stay: Option<&[u8]>,
    label: &[u8],
) -> Result<Marked, Refusal>
    ensures is { (plain_error result ≡ Err no_memory) ⊎ (plain_error result ≡ marks_due (option_copied stay.entry) label.now model.now) }
    ensures stays { IfOk result (λ marks. IfSome marks.stays (λ stays. length stays ≡ states_of model.now)) }
    ensures goals { IfOk result (λ marks. length marks.goals ≡ states_of model.now) }
    ensures not_of_model { IfErr (plain_error result) (λ e. is_of_model (Err e) ≡ false) }
{
    Ok(Marked {
        stays: states_on_way(alloc, model, stay)?,
        goals: states_with(alloc, model, label)?,
    })
}
