//! For the greatest probability a policy that comes to the goals soon. That of a certificate may go round in an end component for long.

ghost use Rattle.std.specs.Prelude.{◌≡◌, ◌<◌, length};
ghost use Rattle.mdp_spec.specs.Mdp.{states_of, choices_at};

use crate::floats::{float_at, float_of, worth};
use mdp_refinement::{group_of, item_at, number_at, put, to_float};
use mdp_rows::{Marks, Model};
use std::alloc::{AllocError, Global};

/// By what part of its value the row of a choice may miss it, and the choice count as one of the best.
const LOSS: f64 = 1e-9;

/// The states with an edge to each state, one list behind the other, and where each list begins.
#[derive(Drop)]
struct Sources {
    states: Vec<u32>,
    starts: Vec<usize>,
}

/// The states in the order of their distances, as far as they are found, and these.
#[derive(Drop)]
struct Layers {
    states: Vec<u32>,
    distances: Vec<u32>,
}

/// Whether the row of choice `c` comes to nearly as much as the state has.
fn is_best(model: &Model, values: &[f64], s: u32, c: u32) -> bool
    requires state { s < states_of model.now }
    requires choice { c < length (choices_at model.now s) }
{
    worth(model, values, s, c) >= float_at(values, s) * (1.0 - LOSS)
}

/// Appends an edge to each of the targets, as a pair with the target first.
fn push_pairs(pairs: &mut Vec<(u32, u32)>, s: u32, targets: &[u32]) -> Result<(), AllocError> {
    for t in targets {
        pairs.push((*t, s))?;
    }
    Ok(())
}

/// Appends the edges of the best choices of a state.
fn push_best(
    pairs: &mut Vec<(u32, u32)>,
    model: &Model,
    values: &[f64],
    s: u32,
) -> Result<(), AllocError>
    requires { s < states_of model.now }
{
    for c in 0..model.choices(s) {
        if is_best(model, values, s, c) {
            push_pairs(pairs, s, model.row(s, c).targets)?;
        }
    }
    Ok(())
}

impl Sources {
    /// From edges that are ordered by their targets.
    fn of(alloc: Global, states: u32, pairs: &[(u32, u32)]) -> Result<Sources, AllocError> {
        let mut sources = Sources {
            states: Vec::with_capacity(alloc, pairs.len())?,
            starts: Vec::new(alloc),
        };
        for pair in pairs {
            for _ in sources.starts.len()..(pair.0 as usize).saturating_add(1) {
                sources.starts.push(sources.states.len())?;
            }
            sources.states.push(pair.1)?;
        }
        for _ in sources.starts.len()..(states as usize) {
            sources.starts.push(sources.states.len())?;
        }
        Ok(sources)
    }
}

impl Layers {
    /// Finds a state at a distance, if it isn't found yet.
    fn find(&mut self, s: u32, distance: u32) -> Result<(), AllocError> {
        if number_at(&self.distances, s) == u32::MAX {
            put(&mut self.distances, s, distance);
            self.states.push(s)?;
        }
        Ok(())
    }

    /// Finds each of these states.
    fn find_each(&mut self, states: &[u32], distance: u32) -> Result<(), AllocError> {
        for s in states {
            self.find(*s, distance)?;
        }
        Ok(())
    }

    /// The goals.
    fn first(alloc: Global, goals: &Marks, states: u32) -> Result<Layers, AllocError>
        requires { length goals.now ≡ states }
    {
        let mut layers = Layers {
            states: Vec::new(alloc),
            distances: vec![in alloc; u32::MAX; states as usize]?,
        };
        for s in 0..states {
            if goals.at(s) {
                layers.find(s, 0)?;
            }
        }
        Ok(layers)
    }
}

/// How many steps by best choices each state is from the goals at least; `u32::MAX` where there is no such way.
pub(crate) fn distances_of(
    alloc: Global,
    model: &Model,
    goals: &Marks,
    may_pass: &[bool],
    values: &[f64],
) -> Result<Vec<u32>, AllocError>
    requires { length goals.now ≡ states_of model.now }
{
    let mut pairs = Vec::new(alloc);
    for s in 0..model.states() {
        if item_at(may_pass, s as usize, false) {
            push_best(&mut pairs, model, values, s)?;
        }
    }
    pairs.sort_unstable();
    let sources = Sources::of(alloc, model.states(), &pairs)?;
    let mut layers = Layers::first(alloc, goals, model.states())?;
    for place in 0..model.states() as usize {
        let s = item_at(&layers.states, place, u32::MAX);
        let distance = number_at(&layers.distances, s).saturating_add(1);
        layers.find_each(
            group_of(&sources.states, &sources.starts, s as usize),
            distance,
        )?;
    }
    Ok(layers.distances)
}

/// How far the targets of a choice are, on an average over those that are some number of steps away.
fn distance_of(model: &Model, distances: &[u32], s: u32, c: u32) -> f64
    requires state { s < states_of model.now }
    requires choice { c < length (choices_at model.now s) }
{
    let row = model.row(s, c);
    let (mut total, mut part) = (0.0, 0.0);
    for place in 0..row.targets.len().min(row.probs.len()) {
        let distance = number_at(distances, row.targets[place]);
        if distance < u32::MAX {
            let prob = float_of(&row.probs[place]);
            total += prob * to_float(i128::from(distance));
            part += prob;
        }
    }
    if part > 0.0 {
        total / part
    } else {
        f64::INFINITY
    }
}

/// The best choice of state `s` whose targets are nearest to the goals; another one where there is none.
pub(crate) fn nearest_choice(
    model: &Model,
    values: &[f64],
    distances: &[u32],
    s: u32,
    other: u32,
) -> u32
    requires { s < states_of model.now }
{
    let mut nearest = other;
    let mut least = f64::INFINITY;
    for c in 0..model.choices(s) {
        let distance = distance_of(model, distances, s, c);
        if distance < least && is_best(model, values, s, c) {
            nearest = c;
            least = distance;
        }
    }
    nearest
}
