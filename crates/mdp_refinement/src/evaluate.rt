//! The values of policies, in floats: by steps of GMRES, which are preconditioned by a sweep, or by an elimination that drops the less the slower
//! they are.

use crate::chosen::Chosen;
use crate::component::Component;
use crate::factors::{Elimination, Factors, eliminated};
use crate::krylov::Equations;
use crate::lists::greatest_size;
use std::alloc::{AllocError, Global};

/// What values may lack at first, as a part of what all gains come to, and by how much less near the end.
const TOLERANCE: f64 = 1e-6;

const SMALLER: f64 = 1e-4;

/// How many runs are made at most, and how many of them with factors that bring values forward.
const MOST_RUNS: u32 = 30;

const MOST_FORWARD: u32 = 8;

/// A run that leaves more than so many times what values may lack didn't bring them forward enough.
const SLOW: f64 = 1e3;

/// What a row may be wrong by near the end, in units, and from which size of a value on it isn't near.
const SMALL_ERROR: f64 = 2e-3;

const FAR: f64 = 1e12;

/// To which part of the greatest gain a run is to bring what rows are wrong by.
const POOR: f64 = 1e-1;

/// How many entries a row keeps in the first elimination, in the next ones as a multiple of the one before, and from when on all.
const FIRST_ENTRIES: usize = 16;

const MORE_ENTRIES: usize = 3;

const MANY_ENTRIES: usize = 400;

/// How many products the eliminations of a search may take in all: so many for each node, but no fewer and no more than these.
const PRODUCTS_OF_NODE: usize = 50_000;

const LEAST_PRODUCTS: usize = 200_000_000;

const MOST_PRODUCTS: usize = 4_000_000_000;

/// Factors that take fewer products than this for each node are made anew for each policy.
const CHEAP_PRODUCTS: usize = 50;

/// How near values are to those of a policy.
#[derive(Clone, Copy)]
enum Nearness {
    Enough,
    /// They become nearer with a smaller tolerance.
    Open,
    /// They need better factors.
    Poor,
}

/// The rows of the policy whose values are sought; the factors of it, or of one before, `factored`, if there are any, and how many entries their rows
/// keep.
#[derive(Drop)]
pub(crate) struct Evaluation<'a> {
    component: &'a Component,
    pub(crate) chosen: Chosen,
    factors: Option<Factors>,
    factored: Vec<usize>,
    is_fresh: bool,
    most: usize,
    products_left: usize,
}

impl<'a> Evaluation<'a> {
    /// No policy yet.
    pub(crate) fn new(alloc: Global, component: &'a Component) -> Evaluation<'a> {
        let products = component.nodes.len().saturating_mul(PRODUCTS_OF_NODE);
        Evaluation {
            component,
            chosen: Chosen::empty(alloc),
            factors: None,
            factored: Vec::new(alloc),
            is_fresh: false,
            most: 0,
            products_left: products.max(LEAST_PRODUCTS).min(MOST_PRODUCTS),
        }
    }

    /// Takes another policy's rows.
    pub(crate) fn take(&mut self, policy: &[usize]) -> Result<(), AllocError> {
        self.is_fresh = self.factored.as_slice() == policy;
        self.chosen.take(self.component, policy)
    }

    /// Has rows keep more entries, from some number on all.
    fn keep_more(&mut self) {
        let more = self.most.saturating_mul(MORE_ENTRIES).max(FIRST_ENTRIES);
        self.most = if more > MANY_ENTRIES {
            usize::MAX
        } else {
            more
        };
    }

    /// Has factors of the policy at hand, whose rows keep more entries where else a node wouldn't leave. Whether it leaves. Where an elimination
    /// takes too long, the factors of before are kept.
    fn factor(&mut self, alloc: Global, policy: &[usize]) -> Result<bool, AllocError> {
        for _ in 0..self.products_left {
            match eliminated(alloc, self.component, policy, self.most, self.products_left)? {
                Elimination::Closed(true) => self.keep_more(),
                Elimination::Closed(false) => return Ok(false),
                Elimination::Long => {
                    self.products_left = 0;
                    break;
                }
                Elimination::Done(factors) => {
                    self.products_left = self.products_left.saturating_sub(factors.products);
                    self.factors = Some(factors);
                    self.factored = policy.to_vec(alloc)?;
                    self.is_fresh = true;
                    break;
                }
            }
        }
        Ok(true)
    }

    /// Whether there are factors, of any policy, that took few products.
    fn are_cheap(&self, nodes: usize) -> bool {
        match &self.factors {
            Some(own) => own.products < nodes.saturating_mul(CHEAP_PRODUCTS),
            None => false,
        }
    }

    /// Whether the factors are those of the policy, with nothing dropped.
    fn is_exact(&self) -> bool {
        match &self.factors {
            Some(own) => self.is_fresh && own.is_exact,
            None => false,
        }
    }

    /// How near values are at the end of a run that leaves rows wrong by so much, where they earn this.
    fn judge(&self, error: f64, before: f64, earned: &[f64], values: &[f64]) -> Nearness {
        let is_poor = error > POOR * greatest_size(earned);
        let is_far = greatest_size(values) > FAR;
        if error <= SMALL_ERROR || is_far && !is_poor {
            Nearness::Enough
        } else if error < before / 2.0 {
            Nearness::Open
        } else if is_poor && !self.is_exact() {
            Nearness::Poor
        } else {
            Nearness::Enough
        }
    }

    /// Brings values to those of the policy, whose rows earn so much. Whether it leaves.
    pub(crate) fn evaluate(
        &mut self,
        alloc: Global,
        policy: &[usize],
        earned: &[f64],
        values: &mut [f64],
    ) -> Result<bool, AllocError> {
        if self.are_cheap(policy.len()) && !self.is_fresh && !self.factor(alloc, policy)? {
            return Ok(false);
        }
        let mut before = f64::INFINITY;
        let mut tolerance = TOLERANCE;
        for run in 0..MOST_RUNS {
            let equations = Equations {
                chosen: &self.chosen,
                factors: self.factors.as_ref(),
            };
            let left = equations.come_nearer(alloc, earned, tolerance, values)?;
            if left <= 1.0 || self.is_exact() {
                let error = self.chosen.spread(earned, values).size(0.0);
                match self.judge(error, before, earned, values) {
                    Nearness::Enough => return Ok(true),
                    Nearness::Open => {
                        before = error;
                        tolerance *= SMALLER;
                        continue;
                    }
                    Nearness::Poor => {}
                }
            } else if left < SLOW && run < MOST_FORWARD {
                continue;
            }
            if self.is_fresh || self.factors.is_none() {
                self.keep_more();
            }
            if !self.factor(alloc, policy)? {
                return Ok(false);
            }
        }
        Ok(true)
    }
}
