ghost use Rattle.std.specs.{Prelude.{◌≡◌, ◌<◌, ◌+◌, ℕ, true, [], length, replicate, IfOk, OnOk}, List.{All}};
ghost use Rattle.mdp_rows.specs.Preds.{is_among};
ghost use Rattle.mdp_graph.specs.{Sets.{marked}, Edges.{AreEdges, predecessors_of}, Ranking.{AreRankedBy, IsGiven}};

use crate::predecessors::Predecessors;
use mdp_rows::Marks;
use std::alloc::{AllocError, Global};

/// Gives `rank`, or any number, to those of the states that have none yet, and appends them to `list`.
pub fn give_rank(
    ranks: &mut Vec<Option<u32>>,
    list: &mut Vec<u32>,
    states: &[u32],
    rank: u32,
) -> Result<(), AllocError>
    requires in_range { All (λ s. s < length ranks.old.items) states.now }
    ensures { OnOk result (IsGiven ranks.old.items list.old.items ranks.new.items list.new.items states.now rank) }
{
    for s in states {
        if ranks[*s as usize].is_none() {
            ranks[*s as usize] = Some(rank);
            list.push(*s)?;
        }
    }
    Ok(())
}

/// Gives `rank`, or any number, to those states without one that have an edge to a state of `layer`. Answers these states.
pub fn next_layer(
    alloc: Global,
    preds: &Predecessors,
    ranks: &mut Vec<Option<u32>>,
    layer: &[u32],
    rank: u32,
) -> Result<Vec<u32>, AllocError>
    requires edges { AreEdges (length ranks.old.items) preds.now }
    requires in_range { All (λ t. t < length ranks.old.items) layer.now }
    ensures { IfOk result (λ next. IsGiven ranks.old.items [] ranks.new.items next.items (predecessors_of preds.now layer.now) rank) }
{
    let mut next = Vec::new(alloc);
    for t in layer {
        give_rank(ranks, &mut next, preds.of(*t), rank)?;
    }
    Ok(next)
}

/// The states that are marked, ascending.
pub(crate) fn marked_states(
    alloc: Global,
    marks: &Marks,
    states: u32,
) -> Result<Vec<u32>, AllocError>
    requires { length marks.now ≡ states }
    ensures marked { IfOk result (λ list. (s : ℕ) → s < states → is_among s list.items ≡ marked marks.now s) }
    ensures below { IfOk result (λ list. (s : ℕ) → is_among s list.items ≡ true → s < states) }
{
    let mut list = Vec::new(alloc);
    for s in 0..states {
        if marks.at(s) {
            list.push(s)?;
        }
    }
    Ok(list)
}

/// So many states without a rank, or any number.
pub fn no_ranks(alloc: Global, states: u32) -> Result<Vec<Option<u32>>, AllocError>
    ensures { IfOk result (λ ranks. ranks.items ≡ replicate states None) }
{
    vec![in alloc; None; states as usize]
}

/// The least ranks by which states reach the marked ones along edges; none where they don't.
pub fn ranks_by(
    alloc: Global,
    preds: &Predecessors,
    first: &Marks,
    states: u32,
) -> Result<Vec<Option<u32>>, AllocError>
    requires edges { AreEdges states preds.now }
    requires first { length first.now ≡ states }
    ensures { IfOk result (λ ranks. AreRankedBy preds.now (marked first.now) states ranks.items) }
{
    let mut ranks = no_ranks(alloc, states)?;
    let mut layer = Vec::new(alloc);
    give_rank(
        &mut ranks,
        &mut layer,
        &marked_states(alloc, first, states)?,
        0,
    )?;
    let mut rank = 0;
    while !layer.is_empty() {
        rank += 1;
        layer = next_layer(alloc, preds, &mut ranks, &layer, rank)?;
    }
    Ok(ranks)
}
