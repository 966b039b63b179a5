//! The order in which states are tried. Nothing rests on it.

ghost use Rattle.std.specs.Prelude.{◌≡◌, length};
ghost use Rattle.mdp_spec.specs.Mdp.{states_of};

use crate::floats::{float_at, floats_of, least_choice};
use crate::nearest::{distances_of, nearest_choice};
use crate::visits::visits_of;
use crate::walk::Ways;
use mdp_bounds::ReachBoundsCert;
use mdp_refinement::{number_at, put};
use mdp_rows::{Dir, Marks, Model};
use std::alloc::{AllocError, Global};
use std::cmp::{OrderedFloat, Reverse};

/// A state, and what the goals get by way of it: how often it is visited, times its value.
#[derive(Clone, Copy)]
pub(crate) struct Weighed {
    pub state: u32,
    pub weight: f64,
}

/// For the greatest probability the best choices that come to the goals soon, for the least one those whose rows come to least.
fn policy_of(
    alloc: Global,
    model: &Model,
    dir: Dir,
    choices: &[u32],
    values: &[f64],
    distances: &[u32],
) -> Result<Vec<u32>, AllocError> {
    let mut policy = Vec::new(alloc);
    for s in 0..model.states() {
        policy.push(match dir {
            Dir::Max => nearest_choice(model, values, distances, s, number_at(choices, s)),
            Dir::Min => least_choice(model, values, s),
        })?;
    }
    Ok(policy)
}

/// Whether a kept state has a value above 0.
fn passable(
    alloc: Global,
    states: u32,
    kept: &Marks,
    values: &[f64],
) -> Result<Vec<bool>, AllocError>
    requires { length kept.now ≡ states }
{
    let mut list = Vec::new(alloc);
    for s in 0..states {
        list.push(kept.at(s) && float_at(values, s) > 0.0)?;
    }
    Ok(list)
}

/// The weight of each of so many states: less than 0 where it isn't among the given ones.
fn weights_of(
    alloc: Global,
    states: u32,
    walk: &[u32],
    visits: &[f64],
    values: &[f64],
) -> Result<Vec<f64>, AllocError> {
    let mut weights = vec![in alloc; -1.0; states as usize]?;
    for s in walk {
        put(
            &mut weights,
            *s,
            float_at(visits, *s) * float_at(values, *s),
        );
    }
    Ok(weights)
}

/// The kept states by their weights, the least first.
fn all_weighed(
    alloc: Global,
    states: u32,
    kept: &Marks,
    weights: &[f64],
) -> Result<Vec<Weighed>, AllocError>
    requires { length kept.now ≡ states }
{
    let mut list = Vec::new(alloc);
    for s in 0..states {
        if kept.at(s) {
            list.push(Weighed {
                state: s,
                weight: float_at(weights, s),
            })?;
        }
    }
    list.sort_unstable_by_key(|item| OrderedFloat(item.weight));
    Ok(list)
}

/// The order in which kept states are tried, by the lower values: first those that the start doesn't lead to, whose weight is less than 0.
pub(crate) fn order_of(
    alloc: Global,
    model: &Model,
    goals: &Marks,
    start: u32,
    dir: Dir,
    kept: &Marks,
    cert: &ReachBoundsCert,
) -> Result<Vec<Weighed>, AllocError>
    requires goals { length goals.now ≡ states_of model.now }
    requires kept { length kept.now ≡ states_of model.now }
{
    let states = model.states();
    let values = floats_of(alloc, &cert.lower)?;
    let may_pass = passable(alloc, states, kept, &values)?;
    let distances = distances_of(alloc, model, goals, &may_pass, &values)?;
    let policy = policy_of(alloc, model, dir, &cert.choices, &values, &distances)?;
    let ways = Ways {
        model,
        dir,
        policy: &policy,
        may_pass: &may_pass,
    };
    let mut walk = ways.walk_from(alloc, start)?;
    walk.sort_by_key(|s| Reverse(number_at(&distances, *s)))?;
    let visits = visits_of(alloc, model, start, &policy, &walk)?;
    let weights = weights_of(alloc, states, &walk, &visits, &values)?;
    all_weighed(alloc, states, kept, &weights)
}

/// The states to which the start doesn't lead, and then as many as weigh no more than an amount together.
pub(crate) fn light_states(
    alloc: Global,
    order: &[Weighed],
    amount: f64,
) -> Result<Vec<u32>, AllocError> {
    let mut list = Vec::new(alloc);
    let mut total = 0.0;
    for item in order {
        if item.weight >= 0.0 {
            total += item.weight;
            if total > amount {
                return Ok(list);
            }
        }
        list.push(item.state)?;
    }
    Ok(list)
}

/// The states of an order.
pub(crate) fn states_in(alloc: Global, order: &[Weighed]) -> Result<Vec<u32>, AllocError> {
    order.iter().map(|item| item.state).collect(alloc)
}
