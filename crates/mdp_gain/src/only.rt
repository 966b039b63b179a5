ghost use Rattle.std.specs.{Prelude.{◌≡◌, ◌<◌, ◌==◌, length, IfOk}, List.{list_all}};
ghost use Rattle.mdp_policy_iteration.specs.Queries.{Solves};
ghost use Rattle.mdp_unichain.specs.Component.{count, choices_at};
ghost use Rattle.mdp_gain.specs.{Code.{component_in, numbers_of, HasEnds, QueryEndsSo}, Only.{stays, answer_alone}, Query.{plain}};

use crate::classes::is_other;
use crate::component::EndComponent;
use crate::inner::Inner;
use crate::only_round::Settled;
use crate::only_state::Only;
use mdp_num::Frac;
use mdp_policy_iteration::in_part;
use mdp_wide::{Part, SolveError};
use std::alloc::{AllocError, Global};

/// Whether all of these states are state `s`.
fn are_all(targets: &[u32], s: u32) -> bool
    ensures { result ≡ list_all (λ t. t == s) targets.now }
{
    for t in targets {
        if is_other(s, *t) {
            return false;
        }
    }
    true
}

impl EndComponent<'_> {
    /// Whether choice `c` of state `s` is none of the component, or stays there.
    fn stays(&self, s: u32, c: u32) -> bool
        requires state { s < count (component_in self.now) }
        requires choice { c < length (choices_at (component_in self.now) s) }
        ensures { result ≡ stays (component_in self.now) s c }
    {
        if self.is_inner(s, c) {
            let row = self.row(s, c);
            return are_all(row.targets, s);
        }
        true
    }

    /// Whether each choice of the component at state `s` stays there: then it is the only state.
    pub(crate) fn is_only(&self, s: u32) -> bool
        requires { s < count (component_in self.now) }
        ensures { result ≡ list_all (stays (component_in self.now) s) (numbers_of (choices_at (component_in self.now) s)) }
    {
        for c in 0..self.choices(s) {
            if !self.stays(s, c) {
                return false;
            }
        }
        true
    }
}

/// What was found, at the only state.
fn inner_of(alloc: Global, s: u32, found: &Settled) -> Result<Inner, AllocError>
    ensures { IfOk result (λ inner. plain inner ≡ answer_alone s found.now) }
{
    Ok(Inner {
        states: vec![in alloc; s]?,
        gain: found.gain,
        bias: vec![in alloc; Frac::whole(0)]?,
        choices: vec![in alloc; found.choice]?,
    })
}

impl Only<'_> {
    /// The best gain.
    pub(crate) fn solve(&self, alloc: Global) -> Result<Inner, SolveError>
        requires given { HasEnds self.now.component }
        ensures { Solves plain (QueryEndsSo self.now.component) result }
    {
        let start = self.component.least_choice(self.s).unwrap_or(0);
        match self.settle(alloc, start) {
            Ok(found) => Ok(inner_of(alloc, self.s, &found)?),
            Err(error) => Err(in_part(error, Part::Inner(self.component.number))),
        }
    }
}
