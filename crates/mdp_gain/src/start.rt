ghost use Rattle.std.specs.{Prelude.{◌≡◌, ◌<◌, ◌==◌, length, map, IfOk}, List.{find, range_with_len}};
ghost use Rattle.mdp_unichain.specs.{Component.{count, choices_at, choice_at, is_state}, Path.{IsFirst}};
ghost use Rattle.mdp_gain.specs.Code.{component_in, numbers_of, HasEnds};

use crate::component::EndComponent;
use mdp_num::Memory;
use mdp_parts::toward;
use mdp_rows::Marks;
use std::alloc::{AllocError, Global};

/// State `t` alone.
fn one_state(alloc: Global, t: u32, states: u32) -> Result<Marks, AllocError>
    ensures { IfOk result (λ marks. marks ≡ map (λ s. s == t) (range_with_len 0 states)) }
{
    let mut marks = Vec::new(alloc);
    for s in 0..states {
        marks.push(s == t)?;
    }
    Ok(Marks::from_values(marks))
}

impl EndComponent<'_> {
    /// The least state of the component.
    fn least_state(&self) -> Option<u32>
        ensures { result ≡ find (is_state (component_in self.now)) (numbers_of (component_in self.now).states) }
    {
        for s in 0..self.count() {
            if self.holds(s) {
                return Some(s);
            }
        }
        None
    }

    /// The least choice of state `s` that is one of the component.
    pub(crate) fn least_choice(&self, s: u32) -> Option<u32>
        requires { s < count (component_in self.now) }
        ensures { result ≡ find (λ c. (choice_at (component_in self.now) s c).inner) (numbers_of (choices_at (component_in self.now) s)) }
    {
        for c in 0..self.choices(s) {
            if self.is_inner(s, c) {
                return Some(c);
            }
        }
        None
    }

    /// The start policy: it goes toward the least state of the component, and takes the least choice of the component there.
    pub(crate) fn start(&self, alloc: Global) -> Result<Vec<u32>, Memory>
        requires given { HasEnds self.now }
        ensures { IfOk result (λ start. IsFirst (component_in self.now) start.items) }
    {
        let least = self.least_state().unwrap_or(0);
        let target = one_state(alloc, least, self.count())?;
        let pass = toward(alloc, self.model, self.ends, self.number, &target)?;
        let mut policy = pass.choices;
        policy[least as usize] = self.least_choice(least).unwrap_or(0);
        Ok(policy)
    }
}
