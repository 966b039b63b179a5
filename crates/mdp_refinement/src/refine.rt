//! Iterative refinement: residuals in whole numbers, corrections in floats, until the rows hold in whole numbers.

use crate::bound::Task;
use crate::component::Component;
use crate::convert::to_float;
use crate::correct::Corrector;
use crate::lists::{put, set_at, takes};
use crate::rows::Rows;
use crate::value::{Value, value_at};
use std::alloc::{AllocError, Global};

/// How many corrections are made at most.
const MOST_ROUNDS: u32 = 30;

/// After how many corrections that don't halve what rows are wrong by they are given more room, and need not be near; after how many there are no
/// more.
const FEW_STALE: u32 = 3;

const MOST_STALE: u32 = 12;

/// The room that rows are given first, as a multiple of what rounding may cost.
const FIRST_ROOM: f64 = 1.01;

/// By how much the room grows with each such correction.
const GROWTH: f64 = 1.5;

/// A policy's row that has more over or under its node's value than this multiple of what rounding may cost isn't near enough.
const LOOSE: f64 = 4.0;

/// A row that gains less units isn't taken where the bound is asked of the policy's rows alone.
const POLICY_GAIN: f64 = 0.05;

/// How the values of a component lie to its rows: whether all hold that are to hold, whether the policy's are near to the values of their nodes, and
/// what these are wrong by at most.
#[derive(Clone, Copy)]
struct Measured {
    is_held: bool,
    is_near: bool,
    error: f64,
}

/// A refinement of the values of a component: what each row has over its node's value, and room for rounding, which is a multiple of what that may
/// cost; the least that rows were wrong by, and how many rounds came to no less than half of it since.
#[derive(Drop)]
struct Refinement<'a> {
    rows: &'a Rows,
    component: &'a Component,
    task: Task,
    gains: Vec<f64>,
    room: f64,
    least: f64,
    stale: u32,
}

impl Refinement<'_> {
    /// Sets the values of the component to these where they are known, and else to 0.
    fn begin(&self, first: &[Value], values: &mut [Value]) {
        for node in &self.component.nodes {
            let value = value_at(first, *node).unwrap_or(0);
            put(values, *node, Value::known(value));
        }
    }

    /// Measures all rows. None past 128 bits.
    fn measure(&mut self, policy: &[usize], values: &[Value]) -> Option<Measured> {
        let mut measured = Measured {
            is_held: true,
            is_near: true,
            error: 0.0,
        };
        for at in 0..self.component.rows.len() {
            let row = self.component.row_at(at);
            let whole = self.rows.row(row.place as usize)?;
            let excess = self.rows.excess(whole, values)?;
            let gap = to_float(excess) / to_float(whole.denominator);
            let is_chosen = takes(policy, row.node, at);
            if is_chosen {
                measured.error = measured.error.max(gap.abs());
                measured.is_near = measured.is_near && gap.abs() <= LOOSE * row.slack;
            }
            if is_chosen || self.task.is_each() {
                measured.is_held = measured.is_held && !self.task.is_nearer(0, excess);
            }
            let room = self.task.side() * self.room * row.slack;
            set_at(&mut self.gains, at, gap + room);
        }
        Some(measured)
    }

    /// Measures the rows and corrects the values by turns. Whether the rows hold at the end that are to hold.
    fn run(
        &mut self,
        alloc: Global,
        corrector: &mut Corrector<'_>,
        values: &mut [Value],
    ) -> Result<bool, AllocError> {
        for round in 0..MOST_ROUNDS {
            let Some(measured) = self.measure(&corrector.policy, values) else {
                return Ok(false);
            };
            if measured.error < self.least / 2.0 {
                self.least = measured.error;
                self.stale = 0;
            } else {
                self.stale = self.stale.saturating_add(1);
            }
            if self.stale >= FEW_STALE {
                self.room *= GROWTH;
            }
            let is_enough = measured.is_near && round > 0 || self.stale >= FEW_STALE;
            if measured.is_held && is_enough {
                return Ok(true);
            }
            if self.stale > MOST_STALE
                || !corrector.correct(alloc, &self.gains)?
                || !self.component.add(&corrector.values, values)
            {
                return Ok(false);
            }
        }
        Ok(false)
    }
}

/// Comes to values of a component that meet the bound on the rows, and to a policy for it, which the corrector has then; it begins with the first
/// values. Whether it came to them; the values are changed otherwise too.
pub(crate) fn refine(
    alloc: Global,
    rows: &Rows,
    component: &Component,
    task: Task,
    first: &[Value],
    corrector: &mut Corrector<'_>,
    values: &mut [Value],
) -> Result<bool, AllocError> {
    let mut refinement = Refinement {
        rows,
        component,
        task,
        gains: vec![in alloc; 0.0; component.rows.len()]?,
        room: FIRST_ROOM,
        least: f64::INFINITY,
        stale: 0,
    };
    if !task.is_each() {
        corrector.small_gain = POLICY_GAIN;
    }
    refinement.begin(first, values);
    refinement.run(alloc, corrector, values)
}
