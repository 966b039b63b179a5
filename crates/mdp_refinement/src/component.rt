use crate::convert::{nearest, to_float};
use crate::graph::Graph;
use crate::lists::{append, float_at, item_at, number, number_at, part_of, put, sum_of, target_of};
use crate::rows::{Rows, WholeRow};
use crate::strong::Components;
use crate::value::{Value, value_at};
use std::alloc::{AllocError, Global};

/// A row of a node of a component, in floats: `total` times the node's value is the row's reward, the sum of probability times value over the
/// entries, and what goes to nodes outside or stops, with probability `exit`. The node's own entry is left out, so `total` is what remains of 1.
#[derive(Clone, Copy)]
pub(crate) struct FloatRow {
    /// The place of the node in the component.
    pub(crate) node: u32,
    /// The place of the whole row.
    pub(crate) place: u32,
    pub(crate) first: u32,
    pub(crate) end: u32,
    pub(crate) exit: f64,
    pub(crate) total: f64,
    /// What rounding of the values to units may cost.
    pub(crate) slack: f64,
}

/// A row of nothing.
const NO_ROW: FloatRow = FloatRow {
    node: u32::MAX,
    place: u32::MAX,
    first: 0,
    end: 0,
    exit: 0.0,
    total: 0.0,
    slack: 0.0,
};

/// A strong component with more than one node, in floats: its rows that lead to no node outside whose value isn't known. Nodes are named by their
/// places in it, mostly behind those that they lead to; an entry is the place of a node and its probability.
#[derive(Drop)]
pub(crate) struct Component {
    pub(crate) nodes: Vec<u32>,
    pub(crate) rows: Vec<FloatRow>,
    starts: Vec<usize>,
    pub(crate) entries: Vec<(u32, f64)>,
    /// With which probability each step ends, whatever its row.
    pub(crate) ending: f64,
}

/// What the rows of a component are gathered from.
#[derive(Clone, Copy)]
struct Source<'a> {
    rows: &'a Rows,
    components: &'a Components,
    number: u32,
    values: &'a [Value],
}

impl Source<'_> {
    /// Whether a node lies in the component.
    fn has(self, node: u32) -> bool {
        self.components.of(node) == self.number
    }

    /// Whether a row leads to no node outside whose value isn't known.
    fn is_known(self, row: &WholeRow) -> bool {
        for entry in self.rows.entries_of(row) {
            if !self.has(entry.node) && value_at(self.values, entry.node).is_none() {
                return false;
            }
        }
        true
    }

    /// Appends the entries of a row to other nodes of the component. The row's denominator less what stays in the component.
    fn push_entries(
        self,
        row: &WholeRow,
        entries: &mut Vec<(u32, f64)>,
    ) -> Result<i128, AllocError> {
        let denominator = to_float(row.denominator);
        let mut leaving = row.denominator;
        for entry in self.rows.entries_of(row) {
            if !self.has(entry.node) {
                continue;
            }
            leaving = leaving.saturating_sub(entry.numerator);
            if entry.node != row.node {
                let prob = to_float(entry.numerator) / denominator;
                entries.push((self.components.place_of(entry.node), prob))?;
            }
        }
        Ok(leaving)
    }
}

/// What a row with these entries that earns so much has over the value of its node. It goes by differences, so that
/// what is alike in all values costs no digits.
pub(crate) fn over(row: &FloatRow, earned: f64, entries: &[(u32, f64)], values: &[f64]) -> f64 {
    let own = float_at(values, row.node);
    let mut total = earned - row.exit * own;
    for entry in entries {
        total += entry.1 * (float_at(values, entry.0) - own);
    }
    total
}

impl Component {
    /// Appends a row of the node at a place, which stands at another place of all rows. It leads to no node outside whose value isn't known.
    fn push(
        &mut self,
        source: Source<'_>,
        node: u32,
        place: usize,
        row: &WholeRow,
    ) -> Result<(), AllocError> {
        let from = self.entries.len();
        let leaving = source.push_entries(row, &mut self.entries)?;
        if let Some(entries) = self.entries.as_mut_slice().get_mut(from..) {
            entries.sort_unstable_by_key(target_of);
        }
        let exit = to_float(leaving) / to_float(row.denominator);
        let inner = sum_of(0.0, part_of(&self.entries, from, self.entries.len()));
        let total = exit + inner;
        let slack = if row.is_stop() {
            0.0
        } else {
            (total + inner) / 2.0
        };
        let row = FloatRow {
            node,
            place: number(place),
            first: number(from),
            end: number(self.entries.len()),
            exit,
            total,
            slack,
        };
        append(&mut self.rows, row)
    }

    /// Appends the rows of the node at a place.
    fn push_node(&mut self, source: Source<'_>, place: u32) -> Result<(), AllocError> {
        let (from, to) = source.rows.range_of(number_at(&self.nodes, place));
        for at in from..to {
            match source.rows.row(at) {
                Some(row) if source.is_known(row) => self.push(source, place, at, row)?,
                _ => {}
            }
        }
        Ok(())
    }

    /// Appends the rows of all nodes, and where those of each begin, and behind the last node where they end.
    fn push_nodes(&mut self, source: Source<'_>) -> Result<(), AllocError> {
        for place in 0..number(self.nodes.len()) {
            append(&mut self.starts, self.rows.len())?;
            self.push_node(source, place)?;
        }
        append(&mut self.starts, self.rows.len())
    }

    /// The component of this number.
    pub(crate) fn new(
        alloc: Global,
        rows: &Rows,
        components: &Components,
        component: usize,
        values: &[Value],
    ) -> Result<Component, AllocError> {
        let mut found = Component {
            nodes: components.nodes_of(component).to_vec(alloc)?,
            rows: Vec::new(alloc),
            starts: Vec::new(alloc),
            entries: Vec::new(alloc),
            ending: 0.0,
        };
        let source = Source {
            rows,
            components,
            number: number(component),
            values,
        };
        found.push_nodes(source)?;
        Ok(found)
    }

    /// Has each step end with this probability more: each row's `exit` and `total` become so much greater.
    pub(crate) fn end_with(&mut self, chance: f64) {
        self.ending += chance;
        for row in self.rows.iter_mut() {
            row.exit += chance;
            row.total += chance;
        }
    }

    /// Adds corrections to the values of its nodes, rounded to units. Not where one is past 128 bits or not a number: whether none was.
    pub(crate) fn add(&self, corrections: &[f64], values: &mut [Value]) -> bool {
        for place in 0..self.nodes.len().min(corrections.len()) {
            let node = self.nodes[place];
            let (Some(value), Some(more)) = (value_at(values, node), nearest(corrections[place]))
            else {
                return false;
            };
            let Some(sum) = value.checked_add(more) else {
                return false;
            };
            put(values, node, Value::known(sum));
        }
        true
    }

    /// Where the rows of the node at a place begin and end.
    pub(crate) fn range_of(&self, place: usize) -> (usize, usize) {
        let to = item_at(&self.starts, place.saturating_add(1), 0);
        (item_at(&self.starts, place, 0), to)
    }

    /// Which of the rows of the node at a place stands at this place of all rows.
    pub(crate) fn row_of(&self, place: usize, pick: Option<usize>) -> Option<usize> {
        let (from, to) = self.range_of(place);
        for at in from..to {
            if self.pick_at(at) == pick {
                return Some(at);
            }
        }
        None
    }

    /// The entries of a row, ordered by place.
    pub(crate) fn entries_of(&self, row: &FloatRow) -> &[(u32, f64)] {
        part_of(&self.entries, row.first as usize, row.end as usize)
    }

    /// The row at a place, one of nothing where there is no such row.
    pub(crate) fn row_at(&self, place: usize) -> FloatRow {
        item_at(&self.rows, place, NO_ROW)
    }

    /// The place of the whole row of the row at a place, if there is such a row.
    pub(crate) fn pick_at(&self, place: usize) -> Option<usize> {
        Some(self.rows.get(place)?.place as usize)
    }

    /// The places of the rows that have an entry to each node.
    pub(crate) fn leading(&self, alloc: Global) -> Result<Graph, AllocError> {
        let mut pairs = Vec::with_capacity(alloc, self.entries.len())?;
        for place in 0..self.rows.len() {
            for entry in self.entries_of(&self.row_at(place)) {
                append(&mut pairs, (entry.0, number(place)))?;
            }
        }
        pairs.sort_unstable();
        let mut leading = Graph::empty(alloc);
        for pair in &pairs {
            leading.push_edge_from(pair.0, pair.1)?;
        }
        Ok(leading)
    }

    /// Picks for each of its nodes the whole row of a policy's.
    pub(crate) fn pick(&self, policy: &[usize], picks: &mut [Option<usize>]) {
        for place in 0..self.nodes.len().min(policy.len()) {
            put(picks, self.nodes[place], self.pick_at(policy[place]));
        }
    }
}
