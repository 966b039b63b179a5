//! A few states that are looked at before the simplest fractions of all are found: where the rules refuse these at one of them, the others needn't be
//! found.

ghost use Rattle.std.specs.Prelude.{◌<◌};
ghost use Rattle.mdp_spec.specs.Mdp.{states_of};

use mdp_rows::Model;
use std::alloc::{AllocError, Global};

/// How many states are looked at.
pub(crate) const FEW_STATES: u32 = 16;

/// The state of place `i` of the few: they lie evenly among so many.
pub(crate) fn few_state(states: u32, i: u32) -> u32 {
    (states / FEW_STATES).saturating_mul(i)
}

/// Flags the states of a list.
fn flag_each(flags: &mut [bool], states: &[u32]) {
    for s in states {
        let place = *s as usize;
        if place < flags.len() {
            flags[place] = true;
        }
    }
}

/// Flags a state and those that its choices lead to.
fn flag_state(flags: &mut [bool], model: &Model, s: u32)
    requires { s < states_of model.now }
{
    flag_each(flags, &[s]);
    for c in 0..model.choices(s) {
        flag_each(flags, model.row(s, c).targets);
    }
}

/// A flag for each state of a model: whether the rules at the few states look at it.
pub(crate) fn few_flags(alloc: Global, model: &Model) -> Result<Vec<bool>, AllocError> {
    let states = model.states();
    let mut is_needed = vec![in alloc; false; states as usize]?;
    for i in 0..FEW_STATES {
        let s = few_state(states, i);
        if s < states {
            flag_state(&mut is_needed, model, s);
        }
    }
    Ok(is_needed)
}
