//! The values of a policy by steps of GMRES, preconditioned: the best values in the space of the directions which the equations lead to, one after
//! the other. Each direction is kept with what the equations make of it, at right angles to those before (generalized conjugate residuals: Eisenstat,
//! Elman and Schultz 1983), so that each step is final.

use crate::chosen::Chosen;
use crate::factors::Factors;
use std::alloc::{AllocError, Global};

/// The steps of one run.
const STEPS: usize = 30;

/// What floats may lose, as a part of what values come to in all, and as a part of a direction.
const LOSS: f64 = 1e-18;

const NO_LENGTH: f64 = 1e-14;

/// The sum of the products of two vectors.
fn dot(first: &[f64], second: &[f64]) -> f64 {
    let mut total = 0.0;
    for place in 0..first.len().min(second.len()) {
        total += first[place] * second[place];
    }
    total
}

/// The length of a vector.
fn length_of(vector: &[f64]) -> f64 {
    dot(vector, vector).sqrt()
}

/// Adds so many times a vector to another one.
fn add_times(vector: &mut [f64], times: f64, other: &[f64]) {
    for place in 0..vector.len().min(other.len()) {
        vector[place] += times * other[place];
    }
}

/// Divides a vector.
fn divide(vector: &mut [f64], divisor: f64) {
    for item in vector {
        *item /= divisor;
    }
}

/// A direction: a vector, and how much of a constant goes with it. `product` is what the equations make of both, of length 1. A constant is by far
/// the slowest part of values where nodes are hardly left, so it is kept apart.
#[derive(Drop)]
struct Direction {
    vector: Vec<f64>,
    constant: f64,
    product: Vec<f64>,
}

/// The equations that a policy's values meet, and what solves them nearly: where there are no factors, each node by those before it.
#[derive(Clone, Copy)]
pub(crate) struct Equations<'a> {
    pub(crate) chosen: &'a Chosen,
    pub(crate) factors: Option<&'a Factors>,
}

impl Equations<'_> {
    /// Nearly the values that values lack, of which there are so many, so that rows which earn so much come to them. Those that aren't there are 0.
    fn lacking(
        self,
        alloc: Global,
        nodes: usize,
        earned: &[f64],
        values: &[f64],
    ) -> Result<Vec<f64>, AllocError> {
        let mut lacking = vec![in alloc; 0.0; nodes]?;
        self.chosen.put_over(earned, values, &mut lacking);
        match self.factors {
            Some(factors) => factors.solve(&mut lacking),
            None => self.chosen.relax(&mut lacking),
        }
        Ok(lacking)
    }

    /// What the equations make of a vector: about that itself.
    fn product(self, alloc: Global, vector: &[f64]) -> Result<Vec<f64>, AllocError> {
        let mut product = self.lacking(alloc, vector.len(), &[], vector)?;
        divide(&mut product, -1.0);
        Ok(product)
    }

    /// Brings values nearer to those to which rows come that earn so much, until what they lack is at most `tolerance` of what all that is earned
    /// comes to. How many times more it is at the end.
    pub(crate) fn come_nearer(
        self,
        alloc: Global,
        earned: &[f64],
        tolerance: f64,
        values: &mut [f64],
    ) -> Result<f64, AllocError> {
        let nodes = values.len();
        let mut steps = Steps {
            equations: self,
            directions: Vec::new(alloc),
            vector: vec![in alloc; 0.0; nodes]?,
            constant: 0.0,
            lacking: self.lacking(alloc, nodes, earned, values)?,
        };
        let ones = vec![in alloc; 1.0; nodes]?;
        let product = self.product(alloc, &ones)?;
        steps.take(vec![in alloc; 0.0; nodes]?, 1.0, product)?;
        let mut all = self.lacking(alloc, nodes, earned, &[])?;
        let least = LOSS * length_of(&all);
        steps.turn(&mut [], &mut all);
        let enough = least.max(tolerance * length_of(&all));
        steps.run(alloc, enough)?;
        add_times(values, 1.0, &steps.vector);
        add_times(values, steps.constant, &ones);
        let left = length_of(&steps.lacking);
        Ok(if enough > 0.0 { left / enough } else { 0.0 })
    }
}

/// The directions so far, the sum of those that were gone, and what values lack then.
#[derive(Drop)]
struct Steps<'a> {
    equations: Equations<'a>,
    directions: Vec<Direction>,
    vector: Vec<f64>,
    constant: f64,
    lacking: Vec<f64>,
}

impl Steps<'_> {
    /// Turns a product so that it is at right angles to those of all directions, and its vector with it. How much of a constant goes with that.
    fn turn(&self, vector: &mut [f64], product: &mut [f64]) -> f64 {
        let mut constant = 0.0;
        for direction in &self.directions {
            let share = dot(&direction.product, product);
            add_times(product, -share, &direction.product);
            add_times(vector, -share, &direction.vector);
            constant -= share * direction.constant;
        }
        constant
    }

    /// Takes a direction, and goes along it as far as that makes less of what values lack. Whether it is one.
    fn take(
        &mut self,
        vector: Vec<f64>,
        constant: f64,
        product: Vec<f64>,
    ) -> Result<bool, AllocError> {
        let mut direction = Direction {
            vector,
            constant,
            product,
        };
        let before = length_of(&direction.product);
        direction.constant += self.turn(&mut direction.vector, &mut direction.product);
        let length = length_of(&direction.product);
        if !(length > NO_LENGTH * before) {
            return Ok(false);
        }
        divide(&mut direction.vector, length);
        divide(&mut direction.product, length);
        direction.constant /= length;
        let way = dot(&direction.product, &self.lacking);
        add_times(&mut self.lacking, -way, &direction.product);
        add_times(&mut self.vector, way, &direction.vector);
        self.constant += way * direction.constant;
        self.directions.push(direction)?;
        Ok(true)
    }

    /// Goes along what values lack, so many times at most, until that is little enough.
    fn run(&mut self, alloc: Global, enough: f64) -> Result<(), AllocError> {
        for _ in 0..STEPS {
            let length = length_of(&self.lacking);
            if !(length > enough) {
                break;
            }
            let mut vector = self.lacking.clone()?;
            divide(&mut vector, length);
            let product = self.equations.product(alloc, &vector)?;
            if !self.take(vector, 0.0, product)? {
                break;
            }
        }
        Ok(())
    }
}
