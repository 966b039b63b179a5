//! Interval iteration in whole numbers: from values that surely meet the bound, each step keeps the rows.

use crate::bound::Task;
use crate::rows::Rows;
use crate::solving::Solution;
use crate::value::{Value, value_at};

/// How many entries are looked at in all.
const MOST_ENTRIES: usize = 3_000_000;

/// The best value of a node by its rows, rounded, and the place of the row that gives it. A row past 128 bits, or one that leads to a value
/// which isn't known, is left out, or, where the bound is to hold on each row, there is no value.
pub(crate) fn best_rounded(
    rows: &Rows,
    task: Task,
    node: u32,
    values: &[Value],
) -> Option<(i128, usize)> {
    let (from, to) = rows.range_of(node);
    let mut best = None;
    for place in from..to {
        let Some(value) = rows.rounded(rows.row(place)?, values, task.bound) else {
            if task.is_each() {
                return None;
            }
            continue;
        };
        match best {
            Some((old, _)) if !task.prefers(value, old) => {}
            _ => best = Some((value, place)),
        }
    }
    best
}

/// How many sweeps are made.
fn count_sweeps(rows: &Rows, nodes: &[u32]) -> usize {
    let mut size = 1usize;
    for node in nodes {
        size = size.saturating_add(rows.edges_of(*node).len());
    }
    MOST_ENTRIES.checked_div(size).unwrap_or(0).max(2)
}

/// Brings the value of a node nearer, where a row allows it. Whether it did.
fn bring_nearer(rows: &Rows, task: Task, node: u32, solution: &mut Solution) -> bool {
    let Some((value, place)) = best_rounded(rows, task, node, &solution.values) else {
        return false;
    };
    match value_at(&solution.values, node) {
        Some(old) if task.is_nearer(value, old) => {
            solution.settle(node, value, Some(place));
            true
        }
        _ => false,
    }
}

/// Brings the values of the nodes of a component nearer, which are such bounds whatever its rows are. The picks of the nodes are to be rows by which
/// they leave it.
pub(crate) fn sweep_exact(rows: &Rows, task: Task, nodes: &[u32], solution: &mut Solution) {
    for _ in 0..count_sweeps(rows, nodes) {
        let mut is_changed = false;
        for node in nodes {
            if bring_nearer(rows, task, *node, solution) {
                is_changed = true;
            }
        }
        if !is_changed {
            break;
        }
    }
}
