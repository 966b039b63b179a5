ghost use Rattle.std.specs.{Prelude.{◌≡◌, ◌<◌, ◌^◌, [], length, map, slice_index_or, IfOk, OnOk}, List.{All, range_with_len}};
ghost use Rattle.mdp_spec.specs.Mdp.{states_of, choices_at};
ghost use Rattle.mdp_ends.specs.Quotient.{nodes_in, node_row};
ghost use Rattle.mdp_parts.specs.FoundEnds.{AreEndsOf};
ghost use Rattle.mdp_quot.specs.{Sums.{IsClear}, Quotient.{loop_row, rows_by, IsQuotient}, QuotientView.{row_in, rows_in}};

use crate::exit_lists::{ExitList, exit_lists};
use crate::node::Node;
use crate::numbering::Numbering;
use crate::quotient::Quotient;
use crate::sums::Sums;
use bumpalo::Bump;
use mdp_num::{Frac, Memory};
use mdp_parts::Ends;
use mdp_rows::{Model, Pred, Row};
use std::alloc::{AllocError, Global};

/// The row of a node that stays, in the arena.
fn loop_row<'b>(arena: &'b Bump, node: u32) -> Result<Row<'b>, AllocError>
    ensures { IfOk result (λ row. row_in row ≡ loop_row node) }
{
    let targets = arena.try_alloc_slice_copy(&[node])?;
    let probs = arena.try_alloc_slice_copy(&[Frac::whole(1)])?;
    Ok(Row { targets, probs })
}

/// The rows of these exits over nodes, in the arena.
fn exit_rows<'b>(
    alloc: Global,
    arena: &'b Bump,
    model: &Model,
    nodes: &[u32],
    sums: &mut Sums,
    exits: &[Pred],
) -> Result<Vec<Row<'b>>, AllocError>
    requires nodes { length nodes.now ≡ states_of model.now }
    requires below { All (λ k. k < nodes_in nodes.now) nodes.now }
    requires exits { All (λ x. (x.state < states_of model.now) × (x.choice < length (choices_at model.now x.state))) exits.now }
    requires clear { IsClear (nodes_in nodes.now) sums.old.sums.items sums.old.seen.items }
    ensures rows { IfOk result (λ rows. map row_in rows.items ≡ map (λ x. node_row model.now nodes.now x.state x.choice) exits.now) }
    ensures clear { OnOk result (IsClear (nodes_in nodes.now) sums.new.sums.items sums.new.seen.items) }
{
    model.known();
    let mut rows = Vec::with_capacity(alloc, exits.len())?;
    for exit in exits {
        let row = model.row(exit.state, exit.choice);
        rows.push(sums.merge(alloc, arena, nodes, row)?)?;
    }
    Ok(rows)
}

/// The rows of a node's exits; its loop where it has none.
fn rows_of_node<'b>(
    alloc: Global,
    arena: &'b Bump,
    model: &Model,
    nodes: &[u32],
    sums: &mut Sums,
    node: u32,
    exits: &[Pred],
) -> Result<Vec<Row<'b>>, AllocError>
    requires nodes { length nodes.now ≡ states_of model.now }
    requires below { All (λ k. k < nodes_in nodes.now) nodes.now }
    requires exits { All (λ x. (x.state < states_of model.now) × (x.choice < length (choices_at model.now x.state))) exits.now }
    requires clear { IsClear (nodes_in nodes.now) sums.old.sums.items sums.old.seen.items }
    ensures rows { IfOk result (λ rows. map row_in rows.items ≡ rows_by model.now nodes.now node exits.now) }
    ensures clear { OnOk result (IsClear (nodes_in nodes.now) sums.new.sums.items sums.new.seen.items) }
{
    if exits.is_empty() {
        let mut rows = Vec::new(alloc);
        rows.push(loop_row(arena, node)?)?;
        Ok(rows)
    } else {
        exit_rows(alloc, arena, model, nodes, sums, exits)
    }
}

/// A node in the arena.
fn settled<'b>(
    arena: &'b Bump,
    component: Option<u32>,
    exits: &[Pred],
    rows: &[Row<'b>],
) -> Result<Node<'b>, AllocError>
    ensures component { IfOk result (λ x. x.component ≡ component) }
    ensures exits { IfOk result (λ x. x.exits.now ≡ exits.now) }
    ensures rows { IfOk result (λ x. rows_in x ≡ map row_in rows.now) }
{
    let exits = arena.try_alloc_slice_copy(exits)?;
    let rows = arena.try_alloc_slice_copy(rows)?;
    Ok(Node {
        component,
        exits,
        rows,
    })
}

/// All nodes in the arena, by their end components and their exits.
fn all_nodes<'b>(
    alloc: Global,
    arena: &'b Bump,
    model: &Model,
    numbering: &Numbering,
    lists: &[ExitList],
) -> Result<Vec<Node<'b>>, AllocError>
    requires nodes { length numbering.now.nodes.items ≡ states_of model.now }
    requires below { All (λ k. k < nodes_in numbering.now.nodes.items) numbering.now.nodes.items }
    requires count { length lists.now ≡ nodes_in numbering.now.nodes.items }
    requires components { length numbering.now.components.items ≡ nodes_in numbering.now.nodes.items }
    requires few { nodes_in numbering.now.nodes.items < 2 ^ 32 }
    requires exits { All (All (λ x. (x.state < states_of model.now) × (x.choice < length (choices_at model.now x.state)))) lists.now }
    ensures components { IfOk result (λ nodes. map (λ x. x.component) nodes.items ≡ numbering.now.components.items) }
    ensures exits { IfOk result (λ nodes. map (λ x. x.exits.now) nodes.items ≡ lists.now) }
    ensures rows { IfOk result (λ nodes. map rows_in nodes.items ≡ map (λ k. rows_by model.now numbering.now.nodes.items k
        (slice_index_or lists.now k [])) (range_with_len 0 (length lists.now))) }
{
    let mut sums = Sums::new(alloc, lists.len() as u32)?;
    let mut nodes = Vec::with_capacity(alloc, lists.len())?;
    for q in 0..lists.len() as u32 {
        let exits = lists[q as usize].as_slice();
        let rows = rows_of_node(alloc, arena, model, &numbering.nodes, &mut sums, q, exits)?;
        nodes.push(settled(arena, numbering.components[q as usize], exits, &rows)?)?;
    }
    Ok(nodes)
}

impl<'b> Quotient<'b> {
    /// The quotient of a model by its maximal end components. Its slices lie in the arena.
    pub fn build(
        alloc: Global,
        arena: &'b Bump<Global>,
        model: &Model,
        ends: &Ends,
    ) -> Result<Quotient<'b>, Memory>
        requires { AreEndsOf model.now ends.now }
        ensures { IfOk result (λ q. IsQuotient model.now ends.now.parts q) }
    {
        model.known();
        let numbering = Numbering::of(alloc, model, ends)?;
        let count = numbering.len();
        let lists = exit_lists(alloc, model, ends, &numbering.nodes, count)?;
        let nodes = all_nodes(alloc, arena, model, &numbering, &lists)?;
        let node_of = arena.try_alloc_slice_copy(&numbering.nodes)?;
        let nodes = arena.try_alloc_slice_copy(&nodes)?;
        Ok(Quotient::from_parts(node_of, nodes))
    }
}
