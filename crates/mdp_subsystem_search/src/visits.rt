//! How often a policy visits states, by sweeps that carry on what has come to each.

use crate::floats::{float_at, float_of};
use mdp_refinement::{group_of, number_at, put};
use mdp_rows::{Model, Row};
use std::alloc::{AllocError, Global};

/// The most sweeps, and how many entries they look at in all.
const MOST_SWEEPS: usize = 2000;

const SWEEP_ENTRIES: usize = 16_777_216;

/// What need not be carried on.
const SMALL: f64 = 1e-9;

/// An entry of a row.
#[derive(Clone, Copy)]
struct Step {
    target: u32,
    prob: f64,
}

/// The policy's rows at some states, one after the other, and where each begins.
#[derive(Drop)]
struct Steps {
    steps: Vec<Step>,
    starts: Vec<usize>,
}

impl Steps {
    /// Appends the entries of a row.
    fn push_row(&mut self, row: Row<'_>) -> Result<(), AllocError> {
        for place in 0..row.targets.len().min(row.probs.len()) {
            self.steps.push(Step {
                target: row.targets[place],
                prob: float_of(&row.probs[place]),
            })?;
        }
        Ok(())
    }

    /// Appends the policy's row at a state.
    fn push_at(&mut self, model: &Model, policy: &[u32], s: u32) -> Result<(), AllocError> {
        self.starts.push(self.steps.len())?;
        if s >= model.states() {
            return Ok(());
        }
        let choice = number_at(policy, s);
        if choice < model.choices(s) {
            self.push_row(model.row(s, choice))?;
        }
        Ok(())
    }

    /// The policy's rows at these states.
    fn of(
        alloc: Global,
        model: &Model,
        policy: &[u32],
        states: &[u32],
    ) -> Result<Steps, AllocError> {
        let mut steps = Steps {
            steps: Vec::new(alloc),
            starts: Vec::new(alloc),
        };
        for s in states {
            steps.push_at(model, policy, *s)?;
        }
        Ok(steps)
    }

    /// How many sweeps there may be.
    fn sweeps(&self) -> usize {
        let entries = self.steps.len().max(self.starts.len()).max(1);
        (SWEEP_ENTRIES / entries).min(MOST_SWEEPS)
    }
}

/// For each state how often it was visited, and what has come to it since.
#[derive(Drop)]
struct Flow {
    visits: Vec<f64>,
    waiting: Vec<f64>,
}

impl Flow {
    /// Sends an amount along a row.
    fn send(&mut self, amount: f64, row: &[Step]) {
        for step in row {
            let more = float_at(&self.waiting, step.target) + amount * step.prob;
            put(&mut self.waiting, step.target, more);
        }
    }

    /// Carries on what has come to each of the states. How much that is.
    fn sweep(&mut self, states: &[u32], steps: &Steps) -> f64 {
        let mut moved = 0.0;
        for place in 0..states.len() {
            let s = states[place];
            let amount = float_at(&self.waiting, s);
            let visits = float_at(&self.visits, s);
            put(&mut self.waiting, s, 0.0);
            put(&mut self.visits, s, visits + amount);
            self.send(amount, group_of(&steps.steps, &steps.starts, place));
            moved += amount;
        }
        moved
    }
}

/// How often each state is visited from the start, by way of these states alone, as far as sweeps tell.
pub(crate) fn visits_of(
    alloc: Global,
    model: &Model,
    start: u32,
    policy: &[u32],
    states: &[u32],
) -> Result<Vec<f64>, AllocError> {
    let steps = Steps::of(alloc, model, policy, states)?;
    let mut flow = Flow {
        visits: vec![in alloc; 0.0; model.states() as usize]?,
        waiting: vec![in alloc; 0.0; model.states() as usize]?,
    };
    put(&mut flow.waiting, start, 1.0);
    for _ in 0..steps.sweeps() {
        if flow.sweep(states, &steps) < SMALL {
            break;
        }
    }
    Ok(flow.visits)
}
