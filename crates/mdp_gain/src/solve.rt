ghost use Rattle.std.specs.{Prelude.{ℕ, ◌≡◌, ◌<◌, true, length, map, filter, List, slice_index, IfOk}, List.{All, range_with_len}};
ghost use Rattle.mdp_spec.specs.Mdp.{value_at};
ghost use Rattle.mdp_ends.specs.Ends.{count_of, in_part};
ghost use Rattle.mdp_parts.specs.FoundEnds.{AreEndsOf};
ghost use Rattle.mdp_policy_iteration.specs.Queries.{Solves};
ghost use Rattle.mdp_unichain.specs.{Component.{count, is_state}, Path.{IsFirst}};
ghost use Rattle.mdp_gain.specs.Code as code;
ghost use Rattle.mdp_gain.specs.Code.{component_in, values_in, numbers_of, HasEnds, HasEntries, FitsStates, AtStates, answer_at, QueryEndsSo};
ghost use Rattle.mdp_gain.specs.{Query.{plain, EndsSo}, Best.{IsBestInner}};

use crate::best_policy::Found;
use crate::component::EndComponent;
use crate::inner::Inner;
use crate::only_state::Only;
use mdp_elim::solution_law;
use mdp_num::Frac;
use mdp_parts::Ends;
use mdp_policy_iteration::{PathError, WideAt, in_part};
use mdp_rows::{Dir, Model};
use mdp_wide::{Part, SolveError};
use std::alloc::{AllocError, Global};

/// The choices of these states.
fn choices_at(alloc: Global, states: &[u32], policy: &[u32]) -> Result<Vec<u32>, AllocError>
    requires { All (λ s. s < length policy.now) states.now }
    ensures { IfOk result (λ choices. choices.items ≡ map (slice_index policy.now) states.now) }
{
    let mut choices = Vec::with_capacity(alloc, states.len())?;
    for s in states {
        choices.push(policy[*s as usize])?;
    }
    Ok(choices)
}

/// The value of state `s`.
fn value_of(values: &[Frac], s: u32) -> Frac
    requires { s < length values.now }
    ensures { result ≡ value_at values.now s }
{
    values[s as usize]
}

/// The values of these states.
fn values_at(alloc: Global, states: &[u32], values: &[Frac]) -> Result<Vec<Frac>, AllocError>
    requires { All (λ s. s < length values.now) states.now }
    ensures { IfOk result (λ list. list.items ≡ map (value_at values.now) states.now) }
{
    let mut list = Vec::with_capacity(alloc, states.len())?;
    for s in states {
        list.push(value_of(values, *s))?;
    }
    Ok(list)
}

/// What was found, at these states.
fn inner_of(alloc: Global, states: Vec<u32>, found: &Found) -> Result<Inner, AllocError>
    requires policy { All (λ s. s < length found.now.policy.items) states.items }
    requires bias { All (λ s. s < length found.now.values.bias.items) states.items }
    ensures { IfOk result (λ inner. plain inner ≡ answer_at states.items found.now.policy.items (values_in found.now.values)) }
{
    Ok(Inner {
        gain: found.values.gain,
        bias: values_at(alloc, &states, &found.values.bias)?,
        choices: choices_at(alloc, &states, &found.policy)?,
        states,
    })
}

/// The same error, with the policy of these states alone.
fn at_states(alloc: Global, states: &[u32], error: PathError) -> PathError
    requires { FitsStates states.now error }
    ensures { AtStates states.now error result }
{
    match error {
        PathError::TooWide(wide) => match choices_at(alloc, states, &wide.policy) {
            Ok(policy) => PathError::TooWide(WideAt {
                round: wide.round,
                policy,
                kind: wide.kind,
                node: wide.node,
                choice: wide.choice,
            }),
            Err(_) => PathError::Memory,
        },
        PathError::Memory => PathError::Memory,
    }
}

impl EndComponent<'_> {
    /// The states of the component, ascending.
    fn states(&self, alloc: Global) -> Result<Vec<u32>, AllocError>
        ensures { IfOk result (λ states. states.items ≡ filter (is_state (component_in self.now)) (numbers_of (component_in self.now).states)) }
    {
        let mut states = Vec::new(alloc);
        for s in 0..self.count() {
            if self.holds(s) {
                states.push(s)?;
            }
        }
        Ok(states)
    }

    /// The end of the path as that of the query.
    fn outcome(&self, alloc: Global, end: Result<Found, PathError>) -> Result<Inner, SolveError>
        requires given { HasEnds self.now }
        requires path { (start : List ℕ) × IsFirst (component_in self.now) start × code.Ends (component_in self.now) start end }
        requires entries { HasEntries (component_in self.now) end }
        ensures { Solves plain (QueryEndsSo self.now) result }
    {
        let states = self.states(alloc)?;
        match end {
            Ok(found) => Ok(inner_of(alloc, states, &found)?),
            Err(error) => Err(in_part(at_states(alloc, &states, error), Part::Inner(self.number))),
        }
    }

    /// The best gain, by policy iteration.
    fn solve(&self, alloc: Global) -> Result<Inner, SolveError>
        requires given { HasEnds self.now }
        ensures { Solves plain (QueryEndsSo self.now) result }
    {
        let start = self.start(alloc)?;
        let end = self.improve(alloc, start);
        self.outcome(alloc, end)
    }
}

/// The greatest or the least gain of end component `i`, under the reward name of place `m`, by policy iteration (Howard 1960): the component's
/// states, the gain, a bias, and a policy with one closed class. `TooWide` is the first written term past width; its policy lists the states,
/// ascending. A round takes time in proportion to the model's states and entries, and that of one elimination over the component's states.
pub fn solve_inner(
    alloc: Global,
    model: &Model,
    ends: &Ends,
    i: u32,
    m: u32,
    dir: Dir,
) -> Result<Inner, SolveError>
    requires ends { AreEndsOf model.now ends.now }
    requires part { i < count_of ends.now.parts }
    requires name { m < length model.now.names }
    ensures path { Solves plain (EndsSo dir model.now ends.now.parts i m) result }
    ensures best { IfOk result (λ found. IsBestInner dir model.now ends.now.parts i m (plain found)) }
{
    model.known();
    solution_law();
    let component = EndComponent {
        dir,
        model,
        ends,
        number: i,
        name: m,
    };
    component.solve(alloc)
}

/// The same of the end component that holds state `s`. Where `s` is its only state, that takes time in proportion to the choices and entries of `s`.
pub fn solve_inner_of(
    alloc: Global,
    model: &Model,
    ends: &Ends,
    i: u32,
    s: u32,
    m: u32,
    dir: Dir,
) -> Result<Inner, SolveError>
    requires ends { AreEndsOf model.now ends.now }
    requires part { i < count_of ends.now.parts }
    requires state { in_part ends.now.parts i s ≡ true }
    requires name { m < length model.now.names }
    ensures path { Solves plain (EndsSo dir model.now ends.now.parts i m) result }
    ensures best { IfOk result (λ found. IsBestInner dir model.now ends.now.parts i m (plain found)) }
{
    model.known();
    solution_law();
    let component = EndComponent {
        dir,
        model,
        ends,
        number: i,
        name: m,
    };
    if component.is_only(s) {
        let only = Only { component, s };
        return only.solve(alloc);
    }
    solve_inner(alloc, model, ends, i, m, dir)
}
