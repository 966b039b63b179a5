//! Policies by which each node leaves its component.

use crate::component::Component;
use crate::graph::Graph;
use crate::lists::{append, flag_at, put, takes};
use std::alloc::{AllocError, Global};

/// A search backwards for ways out of a component: for each node a row by which it is led there, if it has one, and the nodes that are led, in the
/// order in which they got their rows.
#[derive(Drop)]
pub(crate) struct Leaving<'a> {
    component: &'a Component,
    leading: &'a Graph,
    pub(crate) policy: Vec<usize>,
    is_led: Vec<bool>,
    queue: Vec<u32>,
}

impl<'a> Leaving<'a> {
    /// A search that has led no node.
    pub(crate) fn new(alloc: Global, component: &'a Component, leading: &'a Graph) -> Leaving<'a> {
        Leaving {
            component,
            leading,
            policy: Vec::new(alloc),
            is_led: Vec::new(alloc),
            queue: Vec::new(alloc),
        }
    }

    /// Changes a policy to another one at the nodes from which it doesn't leave the component.
    pub(crate) fn make_proper(
        &mut self,
        policy: &mut [usize],
        other: &[usize],
    ) -> Result<(), AllocError> {
        self.search(Some(policy))?;
        for place in 0..policy.len().min(other.len()).min(self.is_led.len()) {
            if !self.is_led[place] {
                policy[place] = other[place];
            }
        }
        Ok(())
    }

    /// Gives a node its row, unless it is led, or a policy that is followed takes another one.
    fn lead(&mut self, row: usize, policy: Option<&[usize]>) -> Result<(), AllocError> {
        let node = self.component.row_at(row).node;
        let is_followed = match policy {
            Some(policy) => takes(policy, node, row),
            None => true,
        };
        if !is_followed || flag_at(&self.is_led, node) {
            return Ok(());
        }
        put(&mut self.is_led, node, true);
        put(&mut self.policy, node, row);
        append(&mut self.queue, node)
    }

    /// Leads all nodes that leave the component, by the policy's rows or by all, in the fewest steps. The others keep the rows that they had.
    /// Whether there are none.
    pub(crate) fn search(&mut self, policy: Option<&[usize]>) -> Result<bool, AllocError> {
        let nodes = self.component.nodes.len();
        self.policy.resize(nodes, 0)?;
        self.is_led.clear();
        self.is_led.resize(nodes, false)?;
        self.queue.clear();
        for row in 0..self.component.rows.len() {
            if self.component.row_at(row).exit > 0.0 {
                self.lead(row, policy)?;
            }
        }
        let leading = self.leading;
        for place in 0..self.is_led.len() {
            let Some(target) = self.queue.get(place).copied() else {
                break;
            };
            for row in leading.targets_of(target) {
                self.lead(*row as usize, policy)?;
            }
        }
        Ok(self.queue.len() >= nodes)
    }
}
