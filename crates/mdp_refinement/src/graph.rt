//! Directed graphs in flat lists.

use crate::lists::{append, group_of};
use std::alloc::{AllocError, Global};

/// A directed graph: the targets of each node's edges, node by node.
#[derive(Drop)]
pub struct Graph {
    starts: Vec<usize>,
    pub(crate) targets: Vec<u32>,
}

impl Graph {
    /// A graph without a node.
    pub fn empty(alloc: Global) -> Graph {
        Graph {
            starts: Vec::new(alloc),
            targets: Vec::new(alloc),
        }
    }

    /// Appends a node without an edge.
    pub fn push_node(&mut self) -> Result<(), AllocError> {
        append(&mut self.starts, self.targets.len())
    }

    /// Appends an edge from the last node.
    pub fn push_edge(&mut self, target: u32) -> Result<(), AllocError> {
        append(&mut self.targets, target)
    }

    /// Appends an edge from a node, the last one or one behind it.
    pub(crate) fn push_edge_from(&mut self, node: u32, target: u32) -> Result<(), AllocError> {
        let nodes = self.starts.len().max((node as usize).saturating_add(1));
        self.starts.resize(nodes, self.targets.len())?;
        self.push_edge(target)
    }

    /// The targets of a node's edges.
    pub(crate) fn targets_of(&self, node: u32) -> &[u32] {
        group_of(&self.targets, &self.starts, node as usize)
    }
}
