//! The model of one end component alone is handed to a builder, state by state.
//!
//! It is a model, and a builder takes each model that is handed over (mdp_rows, `replay_law`). So the builder refuses no call but for want of memory,
//! and each refusal is answered as that.
ghost use Rattle.std.specs.Prelude.{◌≡◌, ◌<◌, ◌∷◌, [], Ok, true, IsTrue, IfOk, OnOk, length, map};
ghost use Rattle.mdp_spec.specs.Mdp.{row_at};
ghost use Rattle.mdp_rows.specs.{Draft.{has_state, has_choice}, Head.{IsSameHead}, Replay.{with_entries, with_choices, with_states}};
ghost use Rattle.mdp_gain.specs.Alone.{placed_entry, to, elsewhere, only_name};
ghost use Rattle.mdp_gain.specs.PartCode.{IsGiven, IsMember, HasChoice, inner_in, choice_in, state_in, model_in};

use mdp_num::{Frac, Memory};
use mdp_parts::Ends;
use mdp_rows::{Builder, Model, RowRule};
use std::alloc::{AllocError, Global};

/// One end component of a model, with its states, ascending, for each state of the model its place among them, and the place of a reward name.
#[derive(Clone, Copy)]
pub(crate) struct OnePart<'a> {
    pub(crate) model: &'a Model,
    pub(crate) ends: &'a Ends,
    pub(crate) number: u32,
    pub(crate) name: u32,
    pub(crate) states: &'a [u32],
    pub(crate) places: &'a [u32],
}

/// Gives the open choice the row of choice `c` of state `s`, to the places of its targets.
fn give_entries(builder: &mut Builder, part: &OnePart<'_>, s: u32, c: u32) -> Result<(), Memory>
    requires given { IsGiven part.now }
    requires member { IsMember part.now s }
    requires choice { HasChoice part.now s c }
    requires inner { inner_in part.now s c ≡ true }
    requires open { IsTrue (has_choice builder.old) }
    requires state_is_open { IsTrue (has_state builder.old) }
    ensures given { OnOk result (with_entries (map (placed_entry part.now.states.now) (row_at part.now.model.now s c)) builder.old ≡ Ok builder.new) }
    ensures same { OnOk result (IsSameHead builder.old builder.new) }
    ensures state_open { OnOk result (IsTrue (has_state builder.new)) }
{
    part.model.known();
    let row = part.model.row(s, c);
    for i in 0..row.targets.len() {
        let place = part.places[row.targets[i] as usize];
        let Ok(()) = builder.entry(place, row.probs[i]) else {
            return Err(Memory);
        };
    }
    Ok(())
}

/// Gives the open choice a row that leads to state `s` alone.
fn give_entry_to(builder: &mut Builder, s: u32) -> Result<(), Memory>
    requires open { IsTrue (has_choice builder.old) }
    requires state_is_open { IsTrue (has_state builder.old) }
    ensures given { OnOk result (with_entries (to s) builder.old ≡ Ok builder.new) }
    ensures same { OnOk result (IsSameHead builder.old builder.new) }
    ensures state_open { OnOk result (IsTrue (has_state builder.new)) }
{
    let Ok(()) = builder.entry(s, Frac::whole(1)) else {
        return Err(Memory);
    };
    Ok(())
}

/// Gives the open choice the row of choice `c` of state `s`; where that isn't one of the end component, a row to the one more state.
fn give_row(builder: &mut Builder, part: &OnePart<'_>, s: u32, c: u32) -> Result<(), Memory>
    requires given { IsGiven part.now }
    requires member { IsMember part.now s }
    requires choice { HasChoice part.now s c }
    requires open { IsTrue (has_choice builder.old) }
    requires state_is_open { IsTrue (has_state builder.old) }
    ensures given { OnOk result (with_entries (choice_in part.now s c).row builder.old ≡ Ok builder.new) }
    ensures same { OnOk result (IsSameHead builder.old builder.new) }
    ensures state_open { OnOk result (IsTrue (has_state builder.new)) }
{
    part.model.known();
    if part.ends.inside(s, c) {
        give_entries(builder, part, s, c)
    } else {
        give_entry_to(builder, part.states.len() as u32)
    }
}

/// Gives the open state choice `c` of state `s`.
fn give_choice(builder: &mut Builder, part: &OnePart<'_>, s: u32, c: u32) -> Result<(), Memory>
    requires given { IsGiven part.now }
    requires member { IsMember part.now s }
    requires choice { HasChoice part.now s c }
    requires open { IsTrue (has_state builder.old) }
    requires names { length builder.old.names ≡ 1 }
    ensures given { OnOk result (with_choices (choice_in part.now s c ∷ []) builder.old ≡ Ok builder.new) }
    ensures same { OnOk result (IsSameHead builder.old builder.new) }
    ensures state_open { OnOk result (IsTrue (has_state builder.new)) }
{
    let reward = part.model.reward(part.name, s, c);
    let Ok(()) = builder.choice(&[reward]) else {
        return Err(Memory);
    };
    give_row(builder, part, s, c)
}

/// Gives the open state the choices of state `s`.
fn give_choices(builder: &mut Builder, part: &OnePart<'_>, s: u32) -> Result<(), Memory>
    requires given { IsGiven part.now }
    requires member { IsMember part.now s }
    requires open { IsTrue (has_state builder.old) }
    requires names { length builder.old.names ≡ 1 }
    ensures given { OnOk result (with_choices (state_in part.now s).choices builder.old ≡ Ok builder.new) }
    ensures same { OnOk result (IsSameHead builder.old builder.new) }
{
    for c in 0..part.model.choices(s) {
        give_choice(builder, part, s, c)?;
    }
    Ok(())
}

/// Gives state `s`, a member of the end component.
fn give_state(builder: &mut Builder, part: &OnePart<'_>, s: u32) -> Result<(), Memory>
    requires given { IsGiven part.now }
    requires member { IsMember part.now s }
    requires names { builder.old.names ≡ only_name ∷ [] }
    ensures given { OnOk result (with_states (only_name ∷ []) [] (state_in part.now s ∷ []) builder.old ≡ Ok builder.new) }
    ensures same { OnOk result (IsSameHead builder.old builder.new) }
{
    let Ok(()) = builder.state(&[Frac::whole(0)]) else {
        return Err(Memory);
    };
    give_choices(builder, part, s)
}

/// Gives the one more state, of this number: it has one choice, which stays there and earns nothing.
fn give_elsewhere(builder: &mut Builder, n: u32) -> Result<(), Memory>
    requires { builder.old.names ≡ only_name ∷ [] }
    ensures { OnOk result (with_states (only_name ∷ []) [] (elsewhere n ∷ []) builder.old ≡ Ok builder.new) }
{
    let zero = Frac::whole(0);
    let Ok(()) = builder.state(&[zero]) else {
        return Err(Memory);
    };
    let Ok(()) = builder.choice(&[zero]) else {
        return Err(Memory);
    };
    give_entry_to(builder, n)
}

/// Gives the states of the end component, and then the one more state.
fn give_states(builder: &mut Builder, part: &OnePart<'_>) -> Result<(), Memory>
    requires given { IsGiven part.now }
    requires names { builder.old.names ≡ only_name ∷ [] }
    ensures { OnOk result (with_states (only_name ∷ []) [] (model_in part.now).states builder.old ≡ Ok builder.new) }
{
    part.model.known();
    for s in part.states {
        give_state(builder, part, *s)?;
    }
    give_elsewhere(builder, part.states.len() as u32)
}

/// The one reward name of the model.
fn name_of(alloc: Global) -> Result<Vec<Vec<u8>>, AllocError>
    ensures { IfOk result (λ names. map (λ n. n.items) names.items ≡ only_name ∷ []) }
{
    Ok(vec![in alloc; b"reward".to_vec(alloc)?]?)
}

/// The model of an end component alone, which has fewer states than its model.
pub(crate) fn alone(alloc: Global, part: &OnePart<'_>) -> Result<Model, Memory>
    requires { IsGiven part.now }
    ensures { IfOk result (λ small. small ≡ model_in part.now) }
{
    part.model.known();
    let names = name_of(alloc)?;
    let states = part.states.len() as u32 + 1;
    let mut builder = Builder::new(alloc, states, RowRule::Exact, names)?;
    give_states(&mut builder, part)?;
    let Ok(small) = builder.finish() else {
        return Err(Memory);
    };
    Ok(small)
}
