ghost use Rattle.std.specs.{Prelude.{◌≡◌, ◌<◌, [], length, None, slice_index, slice_index_or}, List.{All}};
ghost use Rattle.mdp_spec.specs.Row.{entries};
ghost use Rattle.mdp_quot.specs.Quotient.{IsShaped, exits_at, rows_at, row_of};

use crate::node::Node;
use mdp_rows::{Pred, Row};
use std::marker::Model;

/// The quotient of a model by its maximal end components, in an arena. A node is a maximal end component or a state in none; nodes are numbered by
/// their least states. An exit of a node is a choice of one of its states that isn't inside.
#[derive(Drop)]
pub struct Quotient<'b> {
    node_of: &'b [u32],
    nodes: &'b [Node<'b>],
}

impl<'b> Model for Quotient<'b> {
    ghost use Rattle.mdp_quot.specs.Quotient as spec;
    ghost use Rattle.mdp_quot.specs.{QuotientView.{quotient_in}, Quotient.{IsShaped}};

    ghost Value = { spec.Quotient };

    ghost view = { λ q. quotient_in q.node_of.now q.nodes.now };

    ghost invariant = { λ q. IsShaped (quotient_in q.node_of.now q.nodes.now) };
}

impl<'b> Quotient<'b> {
    ghost use Rattle.mdp_quot.specs.QuotientView.{quotient_in};

    /// The quotient that these slices hold.
    pub(crate) fn from_parts(node_of: &'b [u32], nodes: &'b [Node<'b>]) -> Quotient<'b>
        requires { IsShaped (quotient_in node_of.now nodes.now) }
        ensures { result ≡ quotient_in node_of.now nodes.now }
    {
        Quotient { node_of, nodes }
    }

    /// What each quotient keeps.
    pub fn known(&self)
        ensures { IsShaped self.now }
    {
        let _ = &self.nodes;
    }

    /// How many nodes there are.
    pub fn nodes(&self) -> u32
        ensures { result ≡ length self.now.exits }
    {
        self.nodes.len() as u32
    }

    /// The node of state `s`.
    pub fn node_of(&self, s: u32) -> u32
        requires { s < length self.now.nodes }
        ensures { result ≡ slice_index self.now.nodes s }
    {
        self.node_of[s as usize]
    }

    /// The number of the end component that node `q` is; none where it is a state in no end component.
    pub fn component(&self, q: u32) -> Option<u32>
        requires { q < length self.now.exits }
        ensures { result ≡ slice_index_or self.now.components q None }
    {
        self.nodes[q as usize].component
    }

    /// The exits of node `q`, ascending by state and choice.
    pub fn exits(&self, q: u32) -> &'b [Pred]
        requires { q < length self.now.exits }
        ensures { result.now ≡ exits_at self.now q }
    {
        self.nodes[q as usize].exits
    }

    /// The row over nodes of exit `i` of node `q`.
    pub fn row(&self, q: u32, i: u32) -> Row<'b>
        requires node { q < length self.now.exits }
        requires exit { i < length (exits_at self.now q) }
        ensures row { entries result.targets.now result.probs.now ≡ row_of self.now q i }
        ensures in_range { All (λ t. t < length self.now.exits) result.targets.now }
    {
        self.known();
        self.node_row(q, i)
    }

    /// Row `i` of node `q`: that of its exit `i`, or its loop, where it has no exits and `i` is 0.
    pub(crate) fn node_row(&self, q: u32, i: u32) -> Row<'b>
        requires node { q < length self.now.exits }
        requires row { i < length (rows_at self.now q) }
        ensures row { entries result.targets.now result.probs.now ≡ row_of self.now q i }
        ensures in_range { All (λ t. t < length self.now.exits) result.targets.now }
    {
        let rows = self.nodes[q as usize].rows;
        rows[i as usize]
    }
}
