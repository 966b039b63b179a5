ghost use Rattle.std.specs.Prelude.{◌≡◌, ◌<◌, ◌^◌, ℕ, None, Some, length, slice_index, IfOk, OnOk};
ghost use Rattle.mdp_graph.specs.{Edges.{AreEdges}, Layers.{rank_at}};
ghost use Rattle.mdp_ends.specs.{Numbers.{count_from}, DepthFirst.{StandsIn}};
ghost use Rattle.mdp_parts.specs.Numbered.{IsTaken, AreGrouped, IsRenumbered};

use mdp_graph::{Predecessors, give_rank, next_layer, no_ranks};
use std::alloc::{AllocError, Global};

/// Gives `number` to `root` and to the states without a number that lead to it through such states. The time grows with the entries of their
/// lists.
fn take_back(
    alloc: Global,
    back: &Predecessors,
    numbers: &mut Vec<Option<u32>>,
    root: u32,
    number: u32,
) -> Result<(), AllocError>
    requires edges { AreEdges (length numbers.old.items) back.now }
    requires root { root < length numbers.old.items }
    requires free { rank_at numbers.old.items root ≡ None }
    ensures { OnOk result (IsTaken back.now root number numbers.old.items numbers.new.items) }
{
    let mut layer = Vec::new(alloc);
    give_rank(numbers, &mut layer, &[root], number)?;
    while !layer.is_empty() {
        layer = next_layer(alloc, back, numbers, &layer, number)?;
    }
    Ok(())
}

/// A number for each state, by searches backwards from the last state of the order to the first, each of which takes the states that are left.
pub(crate) fn group_back(
    alloc: Global,
    back: &Predecessors,
    order: &[u32],
    states: u32,
) -> Result<Vec<Option<u32>>, AllocError>
    requires edges { AreEdges states back.now }
    requires below { (k : ℕ) → k < length order.now → slice_index order.now k < states }
    requires all { (s : ℕ) → s < states → StandsIn s order.now }
    ensures { IfOk result (λ numbers. AreGrouped back.now order.now states numbers.items) }
{
    let mut numbers = no_ranks(alloc, states)?;
    let mut number = 0;
    for k in (0..order.len()).rev() {
        let root = order[k];
        if numbers[root as usize].is_none() {
            take_back(alloc, back, &mut numbers, root, number)?;
            number += 1;
        }
    }
    Ok(numbers)
}

/// Numbers in the order of the least states, and how many there are.
#[derive(Drop)]
pub(crate) struct Numbering {
    pub numbers: Vec<Option<u32>>,
    pub count: u32,
}

/// Numbers groups of states by their least states: two states get the same number where they have the same key, and none where they have none.
pub(crate) fn numbered(
    alloc: Global,
    keys: &[Option<u32>],
    limit: u32,
) -> Result<Numbering, AllocError>
    requires few { length keys.now < 2 ^ 32 }
    requires below { (s k : ℕ) → s < length keys.now → rank_at keys.now s ≡ Some k → k < limit }
    ensures numbers { IfOk result (λ n. IsRenumbered keys.now n.numbers.items) }
    ensures count { IfOk result (λ n. n.count ≡ count_from 0 n.numbers.items) }
{
    let mut given = no_ranks(alloc, limit)?;
    let mut numbers = Vec::with_capacity(alloc, keys.len())?;
    let mut count = 0;
    for key in keys {
        match *key {
            Some(k) => {
                if given[k as usize].is_none() {
                    given[k as usize] = Some(count);
                    count += 1;
                }
                numbers.push(given[k as usize])?;
            }
            None => numbers.push(None)?,
        }
    }
    Ok(Numbering { numbers, count })
}
