ghost use Rattle.std.specs.Prelude.{◌≡◌, IfOk, length, unwrap_or};
ghost use Rattle.mdp_spec.specs.Mdp.{states_of};
ghost use Rattle.mdp_check.specs.Check.{way_of, way_by};
ghost use Rattle.mdp_command_solve.specs.Ways.{name_of, owned_name, place_on_way};

use mdp_num::Memory;
use mdp_rows::{Marks, Model};
use std::alloc::Global;

/// The place of the label, where the model has it, and the label of the states on the way too.
pub(crate) fn place_on_way(model: &Model, stay: Option<&[u8]>, label: &[u8]) -> Option<u32>
    ensures { result ≡ place_on_way model.now (name_of stay.entry) label.now }
{
    if let Some(stay) = stay {
        model.label(stay)?;
    }
    model.label(label)
}

/// The label of the states on the way, as a value of its own.
pub(crate) fn owned(alloc: Global, stay: Option<&[u8]>) -> Result<Option<Vec<u8>>, Memory>
    ensures { IfOk result (λ name. owned_name name ≡ name_of stay.entry) }
{
    match stay {
        Some(stay) => Ok(Some(stay.to_vec(alloc)?)),
        None => Ok(None),
    }
}

/// What is left of the model for a way that keeps to states with this label, those that the model has: each state that is neither on it nor a goal is
/// left with a loop.
fn left_of(alloc: Global, model: &Model, goals: &Marks, stay: &[u8]) -> Result<Model, Memory>
    requires goals { length goals.now ≡ states_of model.now }
    ensures { IfOk result (λ way. way ≡ way_of model.now goals.now stay.now) }
{
    let stays = match model.label(stay) {
        Some(place) => model.marks_of(alloc, place)?,
        None => Marks::empty(alloc, model.states())?,
    };
    model.cut(alloc, &stays, goals)
}

/// That, where the way keeps to some states; nothing where it keeps to none, and the whole model is left.
pub(crate) fn cut_of(
    alloc: Global,
    model: &Model,
    goals: &Marks,
    stay: Option<&[u8]>,
) -> Result<Option<Model>, Memory>
    requires { length goals.now ≡ states_of model.now }
    ensures { IfOk result (λ cut. unwrap_or cut model.now ≡ way_by model.now goals.now (name_of stay.entry)) }
{
    match stay {
        Some(stay) => Ok(Some(left_of(alloc, model, goals, stay)?)),
        None => Ok(None),
    }
}

/// The model on which the query is asked: what was cut, or else the model itself.
pub(crate) fn way_in<'a>(model: &'a Model, cut: &'a Option<Model>) -> &'a Model
    ensures { result.now ≡ unwrap_or cut.now model.now }
{
    match cut {
        Some(way) => way,
        None => model,
    }
}
