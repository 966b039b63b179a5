//! Corrections of the values of a component, in floats: the best values that gains come to, by sweeps where these come forward, else by policies,
//! each better than the one before.

use crate::component::{Component, over};
use crate::convert::to_float;
use crate::evaluate::Evaluation;
use crate::graph::Graph;
use crate::leaving::Leaving;
use crate::lists::{greatest_size, item_at, number};
use std::alloc::{AllocError, Global};

/// Components of more nodes are swept before policies are evaluated.
const FEW_NODES: usize = 40;

/// How many rounds of sweeps are made at most, and how many that don't come forward as the policy still changes.
const MOST_SWEEP_ROUNDS: usize = 20;

const MOST_MISSES: u32 = 3;

/// How many sweeps a round has over all rows, the first one and each other, and how often so many along the policy's rows.
const FIRST_SWEEPS: usize = 4;

const FOLLOWING: usize = 3;

const SWEEPS: usize = 3;

/// To which part a round of sweeps has to bring what rows are wrong by.
const FORWARD: f64 = 0.1;

/// Sweeps end where no row is wrong by more than this part of what the policy's rows earned, or of a unit.
const ERROR: f64 = 1e-10;

const SMALL_ERROR: f64 = 1e-3;

/// How many policies are tried.
const MOST_POLICIES: usize = 200;

/// How often a policy is improved at most, before its values are found.
const MOST_IMPROVEMENTS: u32 = 16;

/// A row that gains less than this part of a unit is no better than the policy's, unless the search is told to look more closely, or less.
const SMALL_GAIN: f64 = 4e-3;

/// A row that earns less than the policy's by more than so many times the greatest value isn't tried in a sweep.
const FAR: f64 = 64.0;

/// What sums of floats may lose in an improvement, as a part of a node's value.
const GAIN_LOSS: f64 = 1e-13;

/// What each row earns over a gain, whether greater values are better or less, whether nodes are swept, and by how much less than the policy's a row
/// earns that isn't tried.
#[derive(Clone, Copy)]
struct Earning<'a> {
    component: &'a Component,
    gains: &'a [f64],
    gain: f64,
    sense: f64,
    is_swept: bool,
    far: f64,
}

impl Earning<'_> {
    /// What a row earns.
    fn of(self, at: usize) -> f64 {
        item_at(self.gains, at, 0.0) - self.gain
    }

    /// What a row has over the value of its node, times `sense`.
    fn over(self, at: usize, values: &[f64]) -> f64 {
        let row = self.component.row_at(at);
        over(&row, self.of(at), self.component.entries_of(&row), values) * self.sense
    }

    /// By what a row is compared that has so much over the value of its node: that, or, in a sweep, what it makes of the value.
    fn rank(self, at: usize, more: f64) -> f64 {
        if self.is_swept {
            more / self.component.row_at(at).total
        } else {
            more
        }
    }

    /// The best row of the node at a place, and how much it has over the node's value: the policy's, unless another one is better by `least`.
    fn better(self, place: usize, chosen: usize, least: f64, values: &[f64]) -> (usize, f64) {
        let (from, to) = self.component.range_of(place);
        let own = self.over(chosen, values);
        let mut best = (chosen, own);
        let mut most = self.rank(chosen, own) + least;
        for at in from..to {
            // A row that earns so much less that values can't make it better isn't looked at.
            let is_far = (self.of(chosen) - self.of(at)) * self.sense > self.far;
            if at != chosen && !is_far {
                let more = self.over(at, values);
                let rank = self.rank(at, more);
                if rank > most {
                    most = rank;
                    best = (at, more);
                }
            }
        }
        best
    }

    /// Improves a policy by its values: each node in turn takes the row that gains most, where that is more than `small`, and the value that this
    /// comes to. Whether the policy changed.
    fn improve(self, small: f64, values: &mut [f64], policy: &mut [usize]) -> bool {
        let mut is_changed = false;
        for place in 0..policy.len().min(values.len()) {
            let least = small + values[place].abs() * GAIN_LOSS;
            let chosen = policy[place];
            let (row, more) = self.better(place, chosen, least, values);
            if row != chosen || more.abs() > least {
                values[place] += more * self.sense / self.component.row_at(row).total;
                policy[place] = row;
                is_changed = is_changed || row != chosen;
            }
        }
        is_changed
    }
}

/// Takes the mean of the values from each of them. The mean.
fn centre(values: &mut [f64]) -> f64 {
    let mut mean = 0.0;
    for value in values.iter() {
        mean += *value;
    }
    mean /= to_float(i128::from(number(values.len())));
    for value in values {
        *value -= mean;
    }
    mean
}

/// The search for corrections, with these and the policy that it has come to. Where each step may end, the corrections are centred: their mean is 0,
/// and what each of them has over that is `gain` times the number of steps until the end. A row is better than the policy's if it gains more than
/// `small_gain` units.
#[derive(Drop)]
pub(crate) struct Corrector<'a> {
    component: &'a Component,
    sense: f64,
    start: &'a [usize],
    pub(crate) policy: Vec<usize>,
    pub(crate) values: Vec<f64>,
    pub(crate) gain: f64,
    pub(crate) small_gain: f64,
    far: f64,
    is_sweeping: bool,
    earned: Vec<f64>,
    evaluation: Evaluation<'a>,
    leaving: Leaving<'a>,
}

impl<'a> Corrector<'a> {
    /// A search. By the rows of `start` each node leaves, unless each step may end.
    pub(crate) fn new(
        alloc: Global,
        component: &'a Component,
        leading: &'a Graph,
        sense: f64,
        start: &'a [usize],
    ) -> Corrector<'a> {
        Corrector {
            component,
            sense,
            start,
            policy: Vec::new(alloc),
            values: Vec::new(alloc),
            gain: 0.0,
            small_gain: SMALL_GAIN,
            far: f64::INFINITY,
            is_sweeping: component.nodes.len() > FEW_NODES,
            earned: Vec::new(alloc),
            evaluation: Evaluation::new(alloc, component),
            leaving: Leaving::new(alloc, component, leading),
        }
    }

    /// Takes the policy to begin with, and makes place for the values of all nodes.
    pub(crate) fn begin(&mut self, policy: &[usize]) -> Result<(), AllocError> {
        let nodes = self.component.nodes.len();
        self.policy.extend_from_slice(policy)?;
        self.values.resize(nodes, 0.0)?;
        self.earned.resize(nodes, 0.0)
    }

    /// What rows earn.
    fn earning<'x>(&self, gains: &'x [f64], is_swept: bool) -> Earning<'x>
    where
        'a: 'x,
    {
        Earning {
            component: self.component,
            gains,
            gain: self.gain,
            sense: self.sense,
            is_swept,
            far: self.far,
        }
    }

    /// Has the policy leave.
    fn make_proper(&mut self) -> Result<(), AllocError> {
        if self.component.ending > 0.0 {
            return Ok(());
        }
        self.leaving.make_proper(&mut self.policy, self.start)
    }

    /// Puts what the policy's rows earn.
    fn earn(&mut self, gains: &[f64]) {
        for place in 0..self.earned.len().min(self.policy.len()) {
            self.earned[place] = item_at(gains, self.policy[place], 0.0) - self.gain;
        }
    }

    /// What the policy's rows are wrong by. Where each step may end, the values are centred, and the mean of what they are wrong by goes to the gain.
    fn settle(&mut self) -> f64 {
        let spread = self.evaluation.chosen.spread(&self.earned, &self.values);
        let ending = self.component.ending;
        if !(ending > 0.0) {
            return spread.size(0.0);
        }
        let mean = spread.mean(to_float(i128::from(number(self.values.len()))));
        self.gain += mean + ending * centre(&mut self.values);
        spread.size(mean)
    }

    /// Sweeps along the policy's rows. What they are wrong by then.
    fn follow(&mut self, gains: &[f64]) -> f64 {
        self.earn(gains);
        for _ in 0..SWEEPS {
            self.evaluation.chosen.sweep(&self.earned, &mut self.values);
        }
        self.settle()
    }

    /// Sweeps so many times over all rows that the values may make better, and then along those of the policy. Whether that changed, and what its
    /// rows are wrong by.
    fn sweep_round(&mut self, gains: &[f64], first: usize) -> Result<(bool, f64), AllocError> {
        let mut is_changed = false;
        for _ in 0..first {
            // Where the values are 0 they are to become no greater than before.
            let size = greatest_size(&self.values);
            if size > 0.0 {
                self.far = FAR * size;
            }
            let earning = self.earning(gains, true);
            if earning.improve(0.0, &mut self.values, &mut self.policy) {
                is_changed = true;
            }
        }
        self.evaluation.take(&self.policy)?;
        let mut error = 0.0;
        for _ in 0..FOLLOWING {
            error = self.follow(gains);
        }
        Ok((is_changed, error))
    }

    /// Sweeps as long as that brings what rows are wrong by forward. Whether it became small.
    fn sweep_on(&mut self, gains: &[f64]) -> Result<bool, AllocError> {
        self.evaluation.take(&self.policy)?;
        self.earn(gains);
        let mut before = f64::INFINITY;
        let enough = SMALL_ERROR.max(self.settle() * ERROR);
        let mut misses = 0u32;
        for round in 0..MOST_SWEEP_ROUNDS {
            let first = if round == 0 { FIRST_SWEEPS } else { 1 };
            let (is_changed, error) = self.sweep_round(gains, first)?;
            if error <= enough {
                return Ok(true);
            }
            if !(error <= before * FORWARD) {
                misses = misses.saturating_add(1);
                if !is_changed || misses > MOST_MISSES {
                    break;
                }
            }
            before = error;
        }
        Ok(false)
    }

    /// Improves the policy a few times by its values, of which no row is wrong by more than `error`. Whether it changed.
    fn improve(&mut self, gains: &[f64], error: f64) -> bool {
        let small = self.small_gain + 2.0 * error;
        for time in 0..MOST_IMPROVEMENTS {
            let earning = self.earning(gains, false);
            if !earning.improve(small, &mut self.values, &mut self.policy) {
                return time > 0;
            }
        }
        true
    }

    /// Corrections by policies, each better than the one before. Whether there are any.
    fn by_policies(&mut self, alloc: Global, gains: &[f64]) -> Result<bool, AllocError> {
        for _ in 0..MOST_POLICIES {
            self.evaluation.take(&self.policy)?;
            self.earn(gains);
            let (policy, earned) = (&self.policy, &self.earned);
            let evaluation = &mut self.evaluation;
            if !evaluation.evaluate(alloc, policy, earned, &mut self.values)? {
                return Ok(false);
            }
            let error = self.settle();
            if !self.improve(gains, error) {
                break;
            }
            self.make_proper()?;
        }
        Ok(true)
    }

    /// Finds the corrections that gains, one for each row, come to. Whether there are any.
    pub(crate) fn correct(&mut self, alloc: Global, gains: &[f64]) -> Result<bool, AllocError> {
        self.values.fill(0.0);
        self.gain = 0.0;
        if self.is_sweeping {
            self.is_sweeping = self.sweep_on(gains)?;
            self.make_proper()?;
            if self.is_sweeping {
                return Ok(true);
            }
        }
        self.far = f64::INFINITY;
        self.by_policies(alloc, gains)
    }
}
