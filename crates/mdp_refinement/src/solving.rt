//! The values of all nodes for one bound, component by component.

use crate::bound::Task;
use crate::component::Component;
use crate::correct::Corrector;
use crate::graph::Graph;
use crate::intervals::{best_rounded, sweep_exact};
use crate::leaving::Leaving;
use crate::lists::{item_at, number, put, put_each};
use crate::refine::refine;
use crate::rows::Rows;
use crate::strong::{Components, strong_components};
use crate::value::{Value, value_at};
use std::alloc::{AllocError, Global};

/// A value for each node, in units, if one was found, and the place of the row that it takes; none where it takes no row. It is full where
/// refinement came to an end in each component, and no number in it was past 128 bits.
#[derive(Drop)]
pub struct Solution {
    pub values: Vec<Value>,
    pub picks: Vec<Option<usize>>,
    pub is_full: bool,
}

impl Solution {
    /// Takes the given values, and elsewhere those that hold anyway.
    fn begin(&mut self, given: &[Value], anyway: Value) -> Result<(), AllocError> {
        self.picks.resize(given.len(), None)?;
        self.values.extend_from_slice(given)?;
        for value in self.values.iter_mut() {
            if value.units().is_none() {
                *value = anyway;
            }
        }
        Ok(())
    }

    /// Gives a node a value and a row.
    pub(crate) fn settle(&mut self, node: u32, value: i128, pick: Option<usize>) {
        put(&mut self.values, node, Value::known(value));
        put(&mut self.picks, node, pick);
    }

    /// Puts the rows of a component's nodes that were picked.
    fn put_policy(&self, component: &Component, policy: &mut [usize]) {
        for place in 0..policy.len().min(component.nodes.len()) {
            let pick = item_at(&self.picks, component.nodes[place] as usize, None);
            if let Some(row) = component.row_of(place, pick) {
                policy[place] = row;
            }
        }
    }
}

/// The search for one bound, which may begin with what that for the other came to.
#[derive(Drop)]
struct Solver<'a> {
    rows: &'a Rows,
    components: &'a Components,
    task: Task,
    other: Option<&'a Solution>,
    solution: Solution,
}

impl Solver<'_> {
    /// Gives nodes the bounds that hold anyway.
    fn give_up(&mut self, nodes: &[u32]) {
        let anyway = Value::of(self.task.anyway);
        put_each(&mut self.solution.values, nodes, anyway);
        put_each(&mut self.solution.picks, nodes, None);
    }

    /// Whether a row of a node leads out of its component to a value that isn't known.
    fn misses_value(&self, node: u32) -> bool {
        let own = self.components.of(node);
        for entry in self.rows.edges_of(node) {
            let is_outside = self.components.of(entry.node) != own;
            if is_outside && value_at(&self.solution.values, entry.node).is_none() {
                return true;
            }
        }
        false
    }

    /// Whether a row of one of these nodes does.
    fn miss_value(&self, nodes: &[u32]) -> bool {
        for node in nodes {
            if self.misses_value(*node) {
                return true;
            }
        }
        false
    }

    /// A component by refinement that begins with a policy, or else by interval iteration.
    fn solve_leaving(
        &mut self,
        alloc: Global,
        component: &Component,
        start: &[usize],
        corrector: &mut Corrector<'_>,
    ) -> Result<(), AllocError> {
        let first = match self.other {
            Some(other) => other.values.as_slice(),
            None => &[],
        };
        corrector.begin(start)?;
        let (rows, task, values) = (self.rows, self.task, &mut self.solution.values);
        if refine(alloc, rows, component, task, first, corrector, values)? {
            component.pick(&corrector.policy, &mut self.solution.picks);
            return Ok(());
        }
        self.solution.is_full = false;
        self.give_up(&component.nodes);
        if task.to_end && task.anyway.is_some() {
            component.pick(start, &mut self.solution.picks);
            sweep_exact(rows, task, &component.nodes, &mut self.solution);
        }
        Ok(())
    }

    /// A component by corrections that begin with a policy from which each node leaves.
    fn correct(
        &mut self,
        alloc: Global,
        component: &Component,
        leading: &Graph,
        start: &[usize],
    ) -> Result<(), AllocError> {
        let mut corrector = Corrector::new(alloc, component, leading, self.task.sense(), start);
        self.solve_leaving(alloc, component, start, &mut corrector)
    }

    /// A component with several nodes, if each node can leave it. It begins with a policy by which each takes its first row that leaves the
    /// component, else one that leads to a node which does so in fewer steps; or with that of the other bound where it leaves.
    fn solve_open(
        &mut self,
        alloc: Global,
        component: &Component,
        leading: &Graph,
    ) -> Result<(), AllocError> {
        let mut search = Leaving::new(alloc, component, leading);
        if !search.search(None)? {
            self.give_up(&component.nodes);
            return Ok(());
        }
        if let Some(other) = self.other {
            let mut policy = search.policy.clone()?;
            other.put_policy(component, &mut policy);
            search.search(Some(&policy))?;
        }
        self.correct(alloc, component, leading, &search.policy)
    }

    /// The component of this number, which has several nodes.
    fn solve_many(&mut self, alloc: Global, number: usize) -> Result<(), AllocError> {
        let values = &self.solution.values;
        let component = Component::new(alloc, self.rows, self.components, number, values)?;
        let leading = component.leading(alloc)?;
        self.solve_open(alloc, &component, &leading)
    }

    /// The component of this number, whose successors are solved; exactly, where it has one node.
    fn solve_component(&mut self, alloc: Global, number: usize) -> Result<(), AllocError> {
        let components = self.components;
        let nodes = components.nodes_of(number);
        if self.task.is_each() && self.miss_value(nodes) {
            self.give_up(nodes);
            return Ok(());
        }
        let [node] = nodes else {
            return self.solve_many(alloc, number);
        };
        match best_rounded(self.rows, self.task, *node, &self.solution.values) {
            Some((value, place)) => self.solution.settle(*node, value, Some(place)),
            None => {
                self.solution.is_full = false;
                self.give_up(nodes);
            }
        }
        Ok(())
    }

    /// All components, successors first, unless it ends with the first one that isn't refined.
    fn solve_all(&mut self, alloc: Global, given: &[Value]) -> Result<(), AllocError> {
        self.solution.begin(given, Value::of(self.task.anyway))?;
        for component in 0..self.components.count() {
            self.solve_component(alloc, component)?;
            if !self.solution.is_full && !self.task.to_end {
                break;
            }
        }
        Ok(())
    }
}

/// Which nodes are to be solved: those that have no given value but rows, of which none that is to hold was too wide.
fn open_nodes(
    alloc: Global,
    rows: &Rows,
    given: &[Value],
    task: Task,
) -> Result<Vec<bool>, AllocError> {
    let mut open = vec![in alloc; false; given.len()]?;
    for node in 0..number(given.len()) {
        let is_kept = !(task.is_each() && rows.has_wide(node));
        let is_open = is_kept && value_at(given, node).is_none();
        put(&mut open, node, is_open && !rows.rows_of(node).is_empty());
    }
    Ok(open)
}

/// Appends a node for each of so many, with an edge for each entry.
fn push_edges(graph: &mut Graph, rows: &Rows, nodes: u32) -> Result<(), AllocError> {
    for node in 0..nodes {
        graph.push_node()?;
        for entry in rows.edges_of(node) {
            graph.push_edge(entry.node)?;
        }
    }
    Ok(())
}

/// The strong components of the nodes that are to be solved.
fn open_components(
    alloc: Global,
    rows: &Rows,
    given: &[Value],
    task: Task,
) -> Result<Components, AllocError> {
    let open = open_nodes(alloc, rows, given, task)?;
    let mut graph = Graph::empty(alloc);
    push_edges(&mut graph, rows, number(given.len()))?;
    strong_components(alloc, &graph, &open)
}

/// Finds values that are to meet the bound on the rows, for the nodes that are not given theirs. A row that leads to a value which isn't known is
/// left out where the bound is asked of a policy's rows, and leaves its own node without one where it is asked of each row. The search begins with
/// the values and the policy of the other bound, where what that came to on the same rows is handed in.
pub fn solve(
    alloc: Global,
    rows: &Rows,
    given: &[Value],
    task: Task,
    other: Option<&Solution>,
) -> Result<Solution, AllocError> {
    let components = open_components(alloc, rows, given, task)?;
    let mut solver = Solver {
        rows,
        components: &components,
        task,
        other,
        solution: Solution {
            values: Vec::new(alloc),
            picks: Vec::new(alloc),
            is_full: true,
        },
    };
    solver.solve_all(alloc, given)?;
    Ok(solver.solution)
}
