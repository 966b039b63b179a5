ghost use Rattle.std.specs.{Prelude.{◌≡◌, ◌<◌, ℕ, [], true, length, map, slice_index_or, slice_set, IfOk}, List.{range_with_len}};
ghost use Rattle.mdp_spec.specs.Mdp.{states_of, choices_at};
ghost use Rattle.mdp_parts.specs.Allowed.{each_true, allowed_at, AreChoices};

use mdp_num::Memory;
use mdp_rows::Model;
use std::alloc::{AllocError, Global};

/// One truth value for each choice of each state of a model. They stand one state after the other in one vector; beside it, where those of each
/// state start, and at the end where the last ones end.
#[derive(Drop)]
pub struct Allowed {
    values: Vec<bool>,
    starts: Vec<usize>,
}

impl std::marker::Model for Allowed {
    ghost use Rattle.std.specs.Prelude.{Bool, List, length};
    ghost use Rattle.mdp_rows.specs.Pieces.{pieces, ArePlaces};

    ghost Value = { List (List Bool) };

    ghost view = { λ a. pieces a.values.items a.starts.items };

    ghost invariant = { λ a. ArePlaces a.starts.items (length a.values.items) };
}

impl Allowed {
    /// One `true` for each choice of each state.
    fn all_true(alloc: Global, model: &Model) -> Result<Allowed, AllocError>
        ensures { IfOk result (λ allowed. allowed ≡ map (each_true model.now) (range_with_len 0 (states_of model.now))) }
    {
        let mut values = Vec::with_capacity(alloc, model.all_choices() as usize)?;
        let mut starts = Vec::with_capacity(alloc, model.states() as usize + 1)?;
        starts.push(0)?;
        for s in 0..model.states() {
            values.resize(values.len() + model.choices(s) as usize, true)?;
            starts.push(values.len())?;
        }
        Ok(Allowed { values, starts })
    }

    /// Each choice of each state is allowed.
    pub fn all(alloc: Global, model: &Model) -> Result<Allowed, Memory>
        ensures sizes { IfOk result (λ allowed. AreChoices model.now allowed) }
        ensures each { IfOk result (λ allowed. (s c : ℕ) → s < states_of model.now → c < length (choices_at model.now s) →
            allowed_at allowed s c ≡ true) }
    {
        Ok(Allowed::all_true(alloc, model)?)
    }

    /// Whether choice `c` of state `s` is allowed.
    pub fn at(&self, s: u32, c: u32) -> bool
        requires state { s < length self.now }
        requires choice { c < length (slice_index_or self.now s []) }
        ensures { result ≡ allowed_at self.now s c }
    {
        self.values[self.starts[s as usize] + c as usize]
    }

    /// Gives choice `c` of state `s` the value `v`.
    pub fn set(&mut self, s: u32, c: u32, v: bool)
        requires state { s < length self.old }
        requires choice { c < length (slice_index_or self.old s []) }
        ensures { self.new ≡ slice_set self.old s (slice_set (slice_index_or self.old s []) c v) }
    {
        let place = self.starts[s as usize] + c as usize;
        self.values[place] = v;
    }
}
