ghost use Rattle.std.specs.Prelude.{◌≡◌, ◌⊎◌, option_copied, Err, IfOk};
ghost use Rattle.mdp_command.specs.{Prelude.{no_memory, said}, Said.{plain_error}};
ghost use Rattle.mdp_command_horizon.specs.{Due.{states_with, states_that_stay, stay_word, IsHorizonDue}, Printed.{IsHorizonPrinted}};

use crate::laws::horizon_law;
use crate::tables::{is_too_long, refusal_of};
use mdp_horizon::{until, write_until};
use mdp_job::Refusal;
use mdp_rows::{Dir, Marks, Model};
use std::alloc::Global;

/// The states with this label.
pub(crate) fn states_with(alloc: Global, model: &Model, label: &[u8]) -> Result<Marks, Refusal>
    ensures { (plain_error result ≡ Err no_memory) ⊎ (plain_error result ≡ states_with model.now label.now) }
{
    let Some(place) = model.label(label) else {
        return Err(Refusal::QueryLabel);
    };
    Ok(model.marks_of(alloc, place)?)
}

/// The states that stay: those with a label, or every state.
pub(crate) fn states_that_stay(
    alloc: Global,
    model: &Model,
    stay: Option<&[u8]>,
) -> Result<Marks, Refusal>
    ensures { (plain_error result ≡ Err no_memory) ⊎ (plain_error result ≡ states_that_stay model.now (option_copied stay.entry)) }
{
    match stay {
        Some(label) => states_with(alloc, model, label),
        None => Ok(Marks::from_values(vec![in alloc; true; model.states() as usize]?)),
    }
}

/// The word for the states that stay.
pub(crate) fn stay_word(stay: Option<&[u8]>) -> &[u8]
    ensures { result.now ≡ stay_word (option_copied stay.entry) }
{
    match stay {
        Some(label) => label,
        None => b"-",
    }
}

/// The best probabilities of coming, from states with the label `stay` or any states, to states with `label` within so many steps, and a choice of
/// each state for each step: the labels are looked up first, then it is asked whether the table would be too large.
pub fn horizon_query(
    alloc: Global,
    model: &Model,
    dir: Dir,
    stay: Option<&[u8]>,
    label: &[u8],
    steps: u32,
) -> Result<Vec<u8>, Refusal>
    ensures due { (said result ≡ Err no_memory) ⊎ IsHorizonDue dir (option_copied stay.entry) label.now steps model.now (said result) }
    ensures printed { IfOk (said result) (IsHorizonPrinted dir (option_copied stay.entry) label.now steps model.now) }
{
    model.known();
    horizon_law();
    let stays = states_that_stay(alloc, model, stay)?;
    let goals = states_with(alloc, model, label)?;
    if is_too_long(model, steps) {
        return Err(Refusal::QuerySteps);
    }
    let found = match until(alloc, model, dir, &stays, &goals, steps) {
        Ok(found) => found,
        Err(error) => return Err(refusal_of(error)),
    };
    let mut text = Vec::new(alloc);
    write_until(model, dir, stay_word(stay), label, &found, &mut text)?;
    Ok(text)
}
