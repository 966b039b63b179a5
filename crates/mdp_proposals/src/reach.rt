//! The search for probabilities.

ghost use Rattle.std.specs.Prelude.{◌≡◌, length};
ghost use Rattle.mdp_spec.specs.Mdp.{states_of};
ghost use Rattle.mdp_parts.specs.FoundEnds.{AreEndsOf};

use crate::columns::{Columns, Sought};
use crate::decided::{Decided, decide};
use crate::ends::{joined_nodes, lead, put_picked, single_nodes};
use crate::layout::{Earning, Layout};
use crate::proposed::MOST_DIGITS;
use crate::ranks::{min_ranks, put_ranks};
use mdp_num::Memory;
use mdp_parts::{Ends, end_components};
use mdp_refinement::{Nodes, Scale, Value, item_at, put};
use mdp_rows::{Dir, Marks, Model};
use std::alloc::{AllocError, Global};

/// Proposed bounds of probabilities: for each state a lower and an upper value in units of 1 over `one`, a choice and a rank. Nothing is promised of
/// them, nor of how many there are.
#[derive(Drop)]
pub struct ProposedReach {
    pub one: i128,
    pub lower: Vec<i128>,
    pub upper: Vec<i128>,
    pub choices: Vec<u32>,
    pub ranks: Vec<u32>,
}

impl ProposedReach {
    /// Takes the ranks along the policy, past no state of lower value 0. Whether each state of another one has a rank.
    fn take_ranks(
        &mut self,
        alloc: Global,
        model: &Model,
        goals: &Marks,
    ) -> Result<bool, AllocError>
        requires { length goals.now ≡ states_of model.now }
    {
        self.ranks = vec![in alloc; 0; self.choices.len()]?;
        let mut is_zero = vec![in alloc; false; self.lower.len()]?;
        for s in 0..model.states() {
            put(&mut is_zero, s, item_at(&self.lower, s as usize, 0) == 0);
        }
        put_ranks(
            alloc,
            model,
            goals,
            &self.choices,
            &is_zero,
            &mut self.ranks,
        )
    }

    /// Leaves of the lower values those of 1 alone, which hold by the graph.
    fn forget_lower(&mut self) {
        let one = self.one;
        for value in self.lower.iter_mut() {
            if *value < one {
                *value = 0;
            }
        }
    }
}

/// The probabilities that are sought on nodes, where some are known.
fn sought_of<'a>(
    model: &'a Model,
    known: &'a [Value],
    nodes: &'a Nodes,
    dir: Dir,
    digits: u32,
) -> Sought<'a> {
    let earning = Earning {
        model,
        name: None,
        is_negated: false,
    };
    Sought {
        layout: Layout {
            known,
            ..Layout::new(earning, nodes)
        },
        dir,
        least: Some(0),
        greatest: Some(1),
        scale: Scale { digits, room: 0 },
    }
}

/// The values of columns without ranks, and the given choices, but for those that were picked.
fn proposed(
    alloc: Global,
    sought: Sought<'_>,
    columns: &Columns,
    given: &[u32],
) -> Result<ProposedReach, Memory> {
    let mut choices = given.to_vec(alloc)?;
    put_picked(&mut choices, columns.picked(sought.dir));
    Ok(ProposedReach {
        one: columns.lower.one,
        lower: sought.units(alloc, &columns.lower)?,
        upper: sought.units(alloc, &columns.upper)?,
        choices,
        ranks: Vec::new(alloc),
    })
}

/// Bounds where each state is a node, without ranks.
fn single(
    alloc: Global,
    model: &Model,
    decided: &Decided,
    dir: Dir,
    digits: u32,
) -> Result<ProposedReach, Memory> {
    let nodes = single_nodes(alloc, model.states())?;
    let sought = sought_of(model, &decided.known, &nodes, dir, digits);
    let columns = sought.columns(alloc, true)?;
    proposed(alloc, sought, &columns, &decided.choices)
}

/// Bounds of the greatest probabilities, without ranks: the states of an end component share one.
fn joined(
    alloc: Global,
    model: &Model,
    ends: &Ends,
    decided: &Decided,
    digits: u32,
) -> Result<ProposedReach, Memory>
    requires { AreEndsOf model.now ends.now }
{
    let nodes = joined_nodes(alloc, model, ends, &decided.known)?;
    let sought = sought_of(model, &decided.known, &nodes, Dir::Max, digits);
    let columns = sought.columns(alloc, true)?;
    let mut near = proposed(alloc, sought, &columns, &decided.choices)?;
    let picked = columns.picked(Dir::Max);
    lead(alloc, model, ends, picked, &mut near.choices)?;
    Ok(near)
}

/// Bounds without ranks. Where the graph decides all there is no end component to look for, and there is none where it doesn't decide the least
/// value.
fn unranked(
    alloc: Global,
    model: &Model,
    goals: &Marks,
    dir: Dir,
    digits: u32,
) -> Result<ProposedReach, Memory>
    requires { length goals.now ≡ states_of model.now }
{
    let decided = decide(alloc, model, goals, dir)?;
    if dir == Dir::Min || decided.is_all {
        return single(alloc, model, &decided, dir, digits);
    }
    let ends = end_components(alloc, model)?;
    joined(alloc, model, &ends, &decided, digits)
}

/// Proposes bounds of the greatest or the least probability to reach a goal, as multiples of 10 to the power of -`digits` where the rows allow it,
/// with a policy and ranks.
///
/// The graph decides where the probability is 0 or 1. Elsewhere components are solved, successors first: floats give corrections to values in whole
/// numbers, whose residuals are exact (iterative refinement).
pub fn propose_reach(
    alloc: Global,
    model: &Model,
    goals: &Marks,
    dir: Dir,
    digits: u32,
) -> Result<ProposedReach, Memory>
    requires goals { length goals.now ≡ states_of model.now }
{
    let mut near = unranked(alloc, model, goals, dir, digits.min(MOST_DIGITS))?;
    if dir == Dir::Min {
        near.ranks = min_ranks(alloc, model, goals, &near.lower)?;
    } else if !near.take_ranks(alloc, model, goals)? {
        near.forget_lower();
        near.take_ranks(alloc, model, goals)?;
    }
    Ok(near)
}
