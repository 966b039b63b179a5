ghost use Rattle.std.specs.Prelude.{◌≡◌, ◌<◌, length, slice_index_or, slice_set, false, IfOk, replicate};

use mdp_num::Memory;
use std::alloc::Global;

/// One truth value per state.
#[derive(Drop)]
pub struct Marks {
    items: Vec<bool>,
}

impl std::marker::Model for Marks {
    ghost use Rattle.std.specs.Prelude.{Bool, List};

    ghost Value = { List Bool };

    ghost view = { λ m. m.items.items };
}

impl Marks {
    /// One given value for each state.
    pub fn from_values(values: Vec<bool>) -> Marks
        ensures { result ≡ values.items }
    {
        Marks { items: values }
    }

    /// One `false` for each of so many states.
    pub fn empty(alloc: Global, states: u32) -> Result<Marks, Memory>
        ensures { IfOk result (λ m. m ≡ replicate states false) }
    {
        Ok(Marks {
            items: vec![in alloc; false; states as usize]?,
        })
    }

    /// The value of state `s`.
    pub fn at(&self, s: u32) -> bool
        requires { s < length self.now }
        ensures { result ≡ slice_index_or self.now s false }
    {
        self.items[s as usize]
    }

    /// Gives state `s` the value `v`.
    pub fn set(&mut self, s: u32, v: bool)
        requires { s < length self.old }
        ensures { self.new ≡ slice_set self.old s v }
    {
        self.items[s as usize] = v;
    }
}
