ghost use Rattle.std.specs.Prelude.{◌≡◌, ◌<◌, length, IfOk};
ghost use Rattle.mdp_ends.specs.Ends.{count_of};
ghost use Rattle.mdp_parts.specs.FoundEnds.{AreEndsOf};
ghost use Rattle.mdp_policy_iteration.specs.Queries.{Solves};
ghost use Rattle.mdp_gain.specs.{Query.{plain, EndsSo}, Best.{IsBestInner}, PartQuery.{answer_in, state_in}, FoundMembers.{AreMembersOf}};
ghost use Rattle.mdp_gain.specs.{PartCode.{IsGiven}, EndCode.{IsTermIn, IsEndIn}};

use crate::alone::{OnePart, alone};
use crate::inner::Inner;
use crate::laws::gain_law;
use crate::members::Members;
use crate::solve::{solve_inner, solve_inner_of};
use mdp_parts::{Ends, end_components};
use mdp_rows::{Dir, Model};
use mdp_wide::{Part, SolveError, TooWide};
use std::alloc::{AllocError, Global};

/// The number of the state of a place.
fn state_in(states: &[u32], place: Option<u32>) -> Option<u32>
    ensures { result ≡ state_in states.now place }
{
    match place {
        Some(j) => Some(states.get(j as usize).copied().unwrap_or(0)),
        None => None,
    }
}

/// The same term with the states' own numbers, as one of end component `i`.
fn term_in(states: &[u32], i: u32, term: TooWide) -> TooWide
    ensures { IsTermIn states.now i term result }
{
    TooWide {
        part: Part::Inner(i),
        round: term.round,
        policy: term.policy,
        kind: term.kind,
        state: state_in(states, term.state),
        choice: term.choice,
    }
}

/// The same answer with the states' own numbers.
fn answer_in(alloc: Global, states: &[u32], found: Inner) -> Result<Inner, AllocError>
    ensures { IfOk result (λ inner. plain inner ≡ answer_in states.now (plain found)) }
{
    Ok(Inner {
        states: states.to_vec(alloc)?,
        gain: found.gain,
        bias: found.bias,
        choices: found.choices,
    })
}

/// What was found in the model of end component `i` alone, with the states' own numbers.
fn end_in(
    alloc: Global,
    states: &[u32],
    i: u32,
    end: Result<Inner, SolveError>,
) -> Result<Inner, SolveError>
    ensures { IsEndIn states.now i end result }
{
    match end {
        Ok(found) => Ok(answer_in(alloc, states, found)?),
        Err(SolveError::TooWide(term)) => Err(SolveError::TooWide(term_in(states, i, term))),
        Err(SolveError::Memory) => Err(SolveError::Memory),
    }
}

/// The best gain of an end component, found in the model of that end component alone.
fn solve_one(alloc: Global, part: &OnePart<'_>, dir: Dir) -> Result<Inner, SolveError>
    requires { IsGiven part.now }
    ensures path { Solves plain (EndsSo dir part.now.model.now part.now.ends.now.parts part.now.number part.now.name) result }
{
    part.model.known();
    let small = alone(alloc, part)?;
    let ends = end_components(alloc, &small)?;
    let end = solve_inner(alloc, &small, &ends, 0, 0, dir);
    end_in(alloc, part.states, part.number, end)
}

/// The greatest or the least gain of end component `i`, under the reward name of place `m`, as `solve_inner` finds it: the states, the gain, a bias,
/// and a policy with one closed class. `TooWide` is the first written term past width; its policy lists the end component's states, ascending.
/// Where these are fewer than half of the model's states, the end component is solved as a model of its own: a round takes time in proportion to
/// its own states and entries, and that of one elimination over its states.
pub fn solve_alone(
    alloc: Global,
    model: &Model,
    ends: &Ends,
    members: &Members,
    i: u32,
    m: u32,
    dir: Dir,
) -> Result<Inner, SolveError>
    requires ends { AreEndsOf model.now ends.now }
    requires members { AreMembersOf model.now ends.now.parts members.now }
    requires part { i < count_of ends.now.parts }
    requires name { m < length model.now.names }
    ensures path { Solves plain (EndsSo dir model.now ends.now.parts i m) result }
    ensures best { IfOk result (λ found. IsBestInner dir model.now ends.now.parts i m (plain found)) }
{
    model.known();
    gain_law();
    let states = members.of(i);
    if let [s] = states {
        return solve_inner_of(alloc, model, ends, i, *s, m, dir);
    }
    if states.len() * 2 >= model.states() as usize {
        return solve_inner(alloc, model, ends, i, m, dir);
    }
    let part = OnePart {
        model,
        ends,
        number: i,
        name: m,
        states,
        places: members.places(),
    };
    solve_one(alloc, &part, dir)
}
