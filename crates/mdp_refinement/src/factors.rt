//! Incomplete elimination of the nodes of a component under a policy, without subtraction: each pivot is the sum of what is left of a node's row
//! (Grassmann, Taksar and Heyman 1985), so that it keeps its digits however slowly the chain leaves. The nodes go in the order of least fill
//! (Markowitz 1957). A row keeps its greatest entries; what is dropped counts as staying at the node, so that the row keeps its sum.

use crate::component::Component;
use crate::lists::{
    add_over, append, flag_at, float_at, item_at, number, part_of, place_of, put, sum_of, sum_over,
    target_of,
};
use std::alloc::{AllocError, Global};
use std::cmp::{OrderedFloat, Reverse};
use std::collections::BinaryHeap;
use std::mem;

/// Entries of a row or a column, each with a place.
type Entries = Vec<(u32, f64)>;

/// A node that was eliminated, and where the entries stand of what it gave to the nodes that were left, and of what share of it each of those took.
#[derive(Clone, Copy)]
struct Step {
    node: u32,
    pivot: f64,
    row: (usize, usize),
    column: (usize, usize),
}

/// The steps of an elimination, by which systems are solved, or nearly, where entries were dropped. How many products it took.
#[derive(Drop)]
pub(crate) struct Factors {
    steps: Vec<Step>,
    rows: Entries,
    columns: Entries,
    pub(crate) is_exact: bool,
    pub(crate) products: usize,
}

/// How an elimination ends.
#[derive(Drop)]
pub(crate) enum Elimination {
    Done(Factors),
    /// A node doesn't leave. Whether entries were dropped.
    Closed(bool),
    /// It takes too many products.
    Long,
}

impl Factors {
    /// No step yet.
    fn empty(alloc: Global) -> Factors {
        Factors {
            steps: Vec::new(alloc),
            rows: Vec::new(alloc),
            columns: Vec::new(alloc),
            is_exact: true,
            products: 0,
        }
    }

    /// What the node of a step gave to the nodes that were left.
    fn row_of(&self, step: &Step) -> &[(u32, f64)] {
        part_of(&self.rows, step.row.0, step.row.1)
    }

    /// Brings gains forward through the steps.
    fn forward(&self, gains: &mut [f64]) {
        for step in &self.steps {
            let gain = float_at(gains, step.node);
            let column = part_of(&self.columns, step.column.0, step.column.1);
            add_over(gains, column, gain);
        }
    }

    /// Puts in the place of gains the values of which each is its gain and what the policy's row makes of them: the last node first.
    pub(crate) fn solve(&self, gains: &mut [f64]) {
        self.forward(gains);
        for step in self.steps.iter().rev() {
            let total = sum_over(float_at(gains, step.node), self.row_of(step), gains);
            put(gains, step.node, total / step.pivot);
        }
    }
}

/// Appends a number to the list at a place.
fn push_at(lists: &mut [Vec<u32>], place: u32, item: u32) -> Result<(), AllocError> {
    match lists.get_mut(place as usize) {
        Some(list) => append(list, item),
        None => Ok(()),
    }
}

/// Puts the sum of the row of a node and of `share` times another one, without what would lead to the node itself, into `merged`. It is noted in
/// `preds` to which targets the node leads then and not before.
fn merge(
    own: &[(u32, f64)],
    node: u32,
    row: &[(u32, f64)],
    share: f64,
    merged: &mut Entries,
    preds: &mut [Vec<u32>],
) -> Result<(), AllocError> {
    merged.clear();
    let mut next = 0usize;
    for entry in row {
        let mut more = share * entry.1;
        let end = place_of(own, next, entry.0);
        merged.extend_from_slice(part_of(own, next, end))?;
        next = end;
        if next < own.len() && own[next].0 == entry.0 {
            more += own[next].1;
            next = next.saturating_add(1);
        } else if entry.0 != node {
            push_at(preds, entry.0, node)?;
        } else {
            continue;
        }
        append(merged, (entry.0, more))?;
    }
    merged.extend_from_slice(part_of(own, next, own.len()))
}

/// By what entries are ordered, the greatest first.
fn by_size(entry: &(u32, f64)) -> Reverse<OrderedFloat<f64>> {
    Reverse(OrderedFloat(entry.1))
}

/// Keeps the greatest entries of a row that is ordered by target, at most so many. Whether some were dropped.
fn keep_greatest(row: &mut Entries, most: usize) -> bool {
    if row.len() <= most {
        return false;
    }
    row.sort_unstable_by_key(by_size);
    row.truncate(most);
    row.sort_unstable_by_key(target_of);
    true
}

/// The rows that are left, which keep so many entries; the nodes whose rows have, or had, an entry to each node; and a queue in which each node that
/// is left waits with a number of products, and may stand with greater ones.
#[derive(Drop)]
struct System {
    most: usize,
    rows: Vec<Entries>,
    exits: Vec<f64>,
    preds: Vec<Vec<u32>>,
    queue: BinaryHeap<Reverse<(usize, u32)>>,
    products: Vec<usize>,
    is_gone: Vec<bool>,
    merged: Entries,
    factors: Factors,
}

impl System {
    /// No row yet.
    fn empty(alloc: Global, most: usize) -> System {
        System {
            most,
            rows: Vec::new(alloc),
            exits: Vec::new(alloc),
            preds: Vec::new(alloc),
            queue: BinaryHeap::new(alloc),
            products: Vec::new(alloc),
            is_gone: Vec::new(alloc),
            merged: Vec::new(alloc),
            factors: Factors::empty(alloc),
        }
    }

    /// Makes place for so many nodes, whose rows are empty.
    fn make_place(&mut self, alloc: Global, nodes: usize) -> Result<(), AllocError> {
        self.exits.resize(nodes, 0.0)?;
        self.products.resize(nodes, usize::MAX)?;
        self.is_gone.resize(nodes, false)?;
        for _ in 0..nodes {
            self.rows.push(Vec::new(alloc))?;
            self.preds.push(Vec::new(alloc))?;
        }
        Ok(())
    }

    /// Takes the row of a node.
    fn take(&mut self, node: u32, exit: f64, entries: &[(u32, f64)]) -> Result<(), AllocError> {
        put(&mut self.exits, node, exit);
        for entry in entries {
            push_at(&mut self.preds, entry.0, node)?;
        }
        match self.rows.get_mut(node as usize) {
            Some(own) => own.extend_from_slice(entries),
            None => Ok(()),
        }
    }

    /// Has a node wait with the products that it takes at most to eliminate it now, if these are fewer than before.
    fn wait(&mut self, node: u32) -> Result<(), AllocError> {
        let products = self.products_of(node);
        if products < item_at(&self.products, node as usize, 0) {
            put(&mut self.products, node, products);
            self.queue.push(Reverse((products, node)))?;
        }
        Ok(())
    }

    /// How many products it takes at most to eliminate a node now.
    fn products_of(&self, node: u32) -> usize {
        let place = node as usize;
        if place >= self.rows.len() || place >= self.preds.len() {
            return 0;
        }
        self.rows[place]
            .len()
            .saturating_mul(self.preds[place].len())
    }

    /// Puts the row of the node that goes in a step into that of another one, if this leads to that node, and notes the share that it takes.
    fn fold_into(&mut self, pred: u32, step: &Step) -> Result<(), AllocError> {
        let Some(own) = self.rows.get_mut(pred as usize) else {
            return Ok(());
        };
        let Ok(place) = own.binary_search_by_key(&step.node, target_of) else {
            return Ok(());
        };
        let share = own.remove(place).1 / step.pivot;
        let row = self.factors.row_of(step);
        merge(own, pred, row, share, &mut self.merged, &mut self.preds)?;
        mem::swap(own, &mut self.merged);
        if keep_greatest(own, self.most) {
            self.factors.is_exact = false;
        }
        let exit = float_at(&self.exits, step.node);
        add_over(&mut self.exits, &[(pred, exit)], share);
        append(&mut self.factors.columns, (pred, share))?;
        self.wait(pred)
    }

    /// Puts the row of the node that goes in a step into those of the nodes which are left.
    fn fold_all(&mut self, alloc: Global, step: &Step) -> Result<(), AllocError> {
        let Some(list) = self.preds.get_mut(step.node as usize) else {
            return Ok(());
        };
        let preds = mem::replace(list, Vec::new(alloc));
        for pred in &preds {
            if !flag_at(&self.is_gone, *pred) {
                self.fold_into(*pred, step)?;
            }
        }
        Ok(())
    }

    /// Eliminates a node. Whether it leaves.
    fn eliminate(&mut self, alloc: Global, node: u32) -> Result<bool, AllocError> {
        let factors = &mut self.factors;
        let (first, column) = (factors.rows.len(), factors.columns.len());
        if let Some(row) = self.rows.get_mut(node as usize) {
            factors.rows.extend_from_slice(row)?;
            *row = Vec::new(alloc);
        }
        let mut step = Step {
            node,
            pivot: 0.0,
            row: (first, factors.rows.len()),
            column: (column, column),
        };
        step.pivot = sum_of(float_at(&self.exits, node), factors.row_of(&step));
        if !(step.pivot > 0.0) {
            return Ok(false);
        }
        put(&mut self.is_gone, node, true);
        self.fold_all(alloc, &step)?;
        step.column.1 = self.factors.columns.len();
        let width = step.row.1.saturating_sub(first);
        let products = width.saturating_mul(step.column.1.saturating_sub(column));
        self.factors.products = self.factors.products.saturating_add(products);
        append(&mut self.factors.steps, step)?;
        Ok(true)
    }

    /// Eliminates all nodes, with so many products at most. Those whose products have become more than these they waited with wait longer.
    fn eliminate_all(&mut self, alloc: Global, products: usize) -> Result<Elimination, AllocError> {
        for _ in 0..usize::MAX {
            let Some(Reverse((least, node))) = self.queue.pop() else {
                break;
            };
            if flag_at(&self.is_gone, node) {
                continue;
            }
            if self.products_of(node) > least {
                put(&mut self.products, node, usize::MAX);
                self.wait(node)?;
            } else if !self.eliminate(alloc, node)? {
                return Ok(Elimination::Closed(!self.factors.is_exact));
            } else if self.factors.products > products {
                return Ok(Elimination::Long);
            }
        }
        let factors = mem::replace(&mut self.factors, Factors::empty(alloc));
        Ok(Elimination::Done(factors))
    }

    /// Eliminates all nodes of a component under a policy, with so many products at most.
    fn run(
        &mut self,
        alloc: Global,
        component: &Component,
        policy: &[usize],
        products: usize,
    ) -> Result<Elimination, AllocError> {
        self.make_place(alloc, policy.len())?;
        for place in 0..policy.len() {
            let row = component.row_at(policy[place]);
            self.take(number(place), row.exit, component.entries_of(&row))?;
        }
        for node in 0..number(policy.len()) {
            self.wait(node)?;
        }
        self.eliminate_all(alloc, products)
    }
}

/// Eliminates all nodes of a component under a policy. Rows keep so many entries, and there are so many products at most.
pub(crate) fn eliminated(
    alloc: Global,
    component: &Component,
    policy: &[usize],
    most: usize,
    products: usize,
) -> Result<Elimination, AllocError> {
    let mut system = System::empty(alloc, most);
    system.run(alloc, component, policy, products)
}
