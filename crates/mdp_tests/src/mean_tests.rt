//! The best gain of one end component, also by the model of it alone.

ghost use Rattle.std.specs.Prelude.{◌≡◌, ◌<◌, length};
ghost use Rattle.mdp_parts.specs.FoundEnds.{AreEndsOf};
ghost use Rattle.mdp_ends.specs.Ends.{count_of};

use crate::models::model_of;
use mdp_gain::{Inner, members_of, solve_alone, solve_inner};
use mdp_num::Frac;
use mdp_parts::{Ends, end_components};
use mdp_rows::{Dir, Model};
use std::alloc::Global;

/// State 0 stays for 1 or goes to 1, which goes back or stays for 3.
const AWAY: &str = "2#0|[1] 0:1| 1:1;1| 0:1|[3] 1:1";

/// States 1 and 3 of five are an end component, which choice 2 of state 1 leaves; state 4 is another.
const APART: &str = "5#0| 1:1;1| 3:1| 1:1| 4:1;2| 3:1;3| 1:1|[3] 3:1;4|[2] 4:1";

/// What is due of an end component.
#[derive(Clone, Copy)]
struct Due<'a> {
    states: &'a [u32],
    gain: i64,
    bias: &'a [i64],
    choices: &'a [u32],
}

/// Whether these are the fractions.
fn are_whole(values: &[Frac], due: &[i64]) -> bool {
    for (value, whole) in values.iter().zip(due) {
        if *value != Frac::whole(*whole) {
            return false;
        }
    }
    values.len() == due.len()
}

/// Whether what was found is due.
fn is_due(found: &Inner, due: &Due<'_>) -> bool {
    found.states.as_slice() == due.states
        && found.gain == Frac::whole(due.gain)
        && are_whole(&found.bias, due.bias)
        && found.choices.as_slice() == due.choices
}

/// Whether the best gain of the first end component, under the first reward name, is due.
fn first_is_due(alloc: Global, model: &Model, dir: Dir, due: &Due<'_>) -> bool
    requires { 0 < length model.now.names }
{
    let Ok(ends) = end_components(alloc, model) else {
        return false;
    };
    if ends.count() == 0 {
        return false;
    }
    let Ok(inner) = solve_inner(alloc, model, &ends, 0, 0, dir) else {
        return false;
    };
    is_due(&inner, due)
}

/// Whether the best gain of both states of `AWAY`, which are one end component, is due.
fn away_is_due(alloc: Global, dir: Dir, due: &Due<'_>) -> bool {
    let Some(model) = model_of(alloc, AWAY) else {
        return false;
    };
    model.names() > 0 && first_is_due(alloc, &model, dir, due)
}

/// The greatest gain is to stay in the second state.
fn greatest_is_due(alloc: Global) -> bool {
    let due = Due {
        states: &[0, 1],
        gain: 3,
        bias: &[-3, 0],
        choices: &[1, 1],
    };
    away_is_due(alloc, Dir::Max, &due)
}

/// The least gain is to go round.
fn least_is_due(alloc: Global) -> bool {
    let due = Due {
        states: &[0, 1],
        gain: 0,
        bias: &[0, 0],
        choices: &[1, 0],
    };
    away_is_due(alloc, Dir::Min, &due)
}

#[test]
fn solves_one_component(rt: HostRuntime) {
    assert!(rt; greatest_is_due(rt.alloc()) && least_is_due(rt.alloc()));
}

/// Whether the greatest gain of an end component, under the first reward name, is due.
fn part_is_due(alloc: Global, model: &Model, ends: &Ends, i: u32, due: &Due<'_>) -> bool
    requires ends { AreEndsOf model.now ends.now }
    requires part { i < count_of ends.now.parts }
    requires name { 0 < length model.now.names }
{
    let Ok(members) = members_of(alloc, model, ends) else {
        return false;
    };
    let Ok(inner) = solve_alone(alloc, model, ends, &members, i, 0, Dir::Max) else {
        return false;
    };
    is_due(&inner, due)
}

/// States 1 and 3 are due first.
fn pair_is_due(alloc: Global, model: &Model, ends: &Ends) -> bool
    requires ends { AreEndsOf model.now ends.now }
    requires parts { count_of ends.now.parts ≡ 2 }
    requires name { 0 < length model.now.names }
{
    let due = Due {
        states: &[1, 3],
        gain: 3,
        bias: &[-3, 0],
        choices: &[0, 1],
    };
    part_is_due(alloc, model, ends, 0, &due)
}

/// State 4 is due behind them.
fn other_is_due(alloc: Global, model: &Model, ends: &Ends) -> bool
    requires ends { AreEndsOf model.now ends.now }
    requires parts { count_of ends.now.parts ≡ 2 }
    requires name { 0 < length model.now.names }
{
    let due = Due {
        states: &[4],
        gain: 2,
        bias: &[0],
        choices: &[0],
    };
    part_is_due(alloc, model, ends, 1, &due)
}

/// Whether the greatest gains of two end components are due.
fn parts_are_due(alloc: Global, model: &Model) -> bool
    requires { 0 < length model.now.names }
{
    let Ok(ends) = end_components(alloc, model) else {
        return false;
    };
    ends.count() == 2 && pair_is_due(alloc, model, &ends) && other_is_due(alloc, model, &ends)
}

fn apart_is_due(alloc: Global) -> bool {
    let Some(model) = model_of(alloc, APART) else {
        return false;
    };
    model.names() > 0 && parts_are_due(alloc, &model)
}

#[test]
fn solves_components_alone(rt: HostRuntime) {
    assert!(rt; apart_is_due(rt.alloc()));
}
