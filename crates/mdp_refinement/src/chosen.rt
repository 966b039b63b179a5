//! The rows that a policy takes, copied one behind the other, so that what follows them reads no others.

use crate::component::{Component, FloatRow, over};
use crate::lists::{append, float_at, number, part_of, place_of, put, sum_over};
use std::alloc::{AllocError, Global};

/// What rows have over the values of their nodes: the least and the greatest, and the sum.
#[derive(Clone, Copy)]
pub(crate) struct Spread {
    least: f64,
    greatest: f64,
    sum: f64,
}

/// The row of each node.
#[derive(Drop)]
pub(crate) struct Chosen {
    policy: Vec<usize>,
    rows: Vec<FloatRow>,
    entries: Vec<(u32, f64)>,
}

impl Spread {
    /// The mean of so many.
    pub(crate) fn mean(self, rows: f64) -> f64 {
        self.sum / rows
    }

    /// The greatest absolute value, where all are less by this.
    pub(crate) fn size(self, less: f64) -> f64 {
        (self.greatest - less).max(less - self.least)
    }
}

impl Chosen {
    /// No row yet.
    pub(crate) fn empty(alloc: Global) -> Chosen {
        Chosen {
            policy: Vec::new(alloc),
            rows: Vec::new(alloc),
            entries: Vec::new(alloc),
        }
    }

    /// Takes a policy's rows in the place of those before, unless these are the same.
    pub(crate) fn take(
        &mut self,
        component: &Component,
        policy: &[usize],
    ) -> Result<(), AllocError> {
        if self.policy.as_slice() == policy {
            return Ok(());
        }
        self.policy.clear();
        self.policy.extend_from_slice(policy)?;
        self.rows.clear();
        self.entries.clear();
        for at in policy {
            let mut row = component.row_at(*at);
            let first = number(self.entries.len());
            self.entries.extend_from_slice(component.entries_of(&row))?;
            row.first = first;
            row.end = number(self.entries.len());
            append(&mut self.rows, row)?;
        }
        Ok(())
    }

    /// The entries of a row.
    fn entries_of(&self, row: &FloatRow) -> &[(u32, f64)] {
        part_of(&self.entries, row.first as usize, row.end as usize)
    }

    /// What a row has over the value of its node, where rows earn so much.
    fn over(&self, row: &FloatRow, earned: &[f64], values: &[f64]) -> f64 {
        let own = float_at(earned, row.node);
        over(row, own, self.entries_of(row), values)
    }

    /// Gives each node in turn the value that its row makes of the values, where it earns so much.
    pub(crate) fn sweep(&self, earned: &[f64], values: &mut [f64]) {
        for row in &self.rows {
            let own = float_at(earned, row.node);
            let total = sum_over(own, self.entries_of(row), values);
            put(values, row.node, total / row.total);
        }
    }

    /// Gives each node the value to which what it earns comes, which it takes the place of, where entries to later nodes count nothing.
    pub(crate) fn relax(&self, values: &mut [f64]) {
        for row in &self.rows {
            let entries = self.entries_of(row);
            let before = part_of(entries, 0, place_of(entries, 0, row.node));
            let total = sum_over(float_at(values, row.node), before, values);
            put(values, row.node, total / row.total);
        }
    }

    /// Puts what rows that earn so much have over the values of their nodes.
    pub(crate) fn put_over(&self, earned: &[f64], values: &[f64], overs: &mut [f64]) {
        for row in &self.rows {
            put(overs, row.node, self.over(row, earned, values));
        }
    }

    /// What rows that earn so much have over the values of their nodes.
    pub(crate) fn spread(&self, earned: &[f64], values: &[f64]) -> Spread {
        let mut spread = Spread {
            least: f64::INFINITY,
            greatest: f64::NEG_INFINITY,
            sum: 0.0,
        };
        for row in &self.rows {
            let more = self.over(row, earned, values);
            spread.least = spread.least.min(more);
            spread.greatest = spread.greatest.max(more);
            spread.sum += more;
        }
        spread
    }
}
