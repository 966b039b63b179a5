//! The search for rewards until a goal.

ghost use Rattle.std.specs.Prelude.{◌≡◌, length};
ghost use Rattle.mdp_spec.specs.Mdp.{states_of};
ghost use Rattle.mdp_parts.specs.FoundEnds.{AreEndsOf};

use crate::columns::{Bounds, Sought};
use crate::ends::{joined_nodes, lead, single_nodes};
use crate::layout::{Earning, Layout};
use crate::proposed::MOST_DIGITS;
use crate::ranks::put_ranks;
use mdp_num::{Frac, Memory};
use mdp_parts::{Ends, end_components};
use mdp_refinement::{Scale, Value, put, value_at};
use mdp_reward::{Start, start_of};
use mdp_rows::{Dir, Marks, Model};
use std::alloc::{AllocError, Global};

/// Proposed bounds of rewards: for each state a lower and an upper value, a choice and a rank. A lower value of none is infinite; an upper one of
/// none bounds nothing. Nothing is promised of them, nor of how many there are.
#[derive(Drop)]
pub struct ProposedReward {
    pub lower: Vec<Option<Frac>>,
    pub upper: Vec<Option<Frac>>,
    pub choices: Vec<u32>,
    pub ranks: Vec<u32>,
}

/// The states that are goals, whose value is 0, and those of infinite reward.
#[derive(Drop)]
struct Settled {
    known: Vec<Value>,
    is_infinite: Vec<bool>,
}

/// What goals and states of finite reward say of each state.
fn settled_states(
    alloc: Global,
    states: u32,
    goals: &Marks,
    finite: &Marks,
) -> Result<Settled, AllocError>
    requires goals { length goals.now ≡ states }
    requires finite { length finite.now ≡ states }
{
    let mut known = vec![in alloc; Value::none(); states as usize]?;
    let mut is_infinite = vec![in alloc; false; states as usize]?;
    for s in 0..states {
        put(&mut is_infinite, s, !finite.at(s));
        if goals.at(s) {
            put(&mut known, s, Value::known(0));
        }
    }
    Ok(Settled { known, is_infinite })
}

/// Bounds with these ranks.
fn proposed(bounds: Bounds, ranks: Vec<u32>) -> ProposedReward {
    ProposedReward {
        lower: bounds.lower,
        upper: bounds.upper,
        choices: bounds.choices,
        ranks,
    }
}

/// Bounds of the least rewards with ranks. Where their policy misses the goals it is the one to begin with, and no upper value is known but that of
/// goals.
fn with_ranks(
    alloc: Global,
    layout: Layout<'_>,
    bounds: Bounds,
    goals: &Marks,
    start: Start,
) -> Result<ProposedReward, Memory>
    requires { length goals.now ≡ states_of layout.earning.model.now }
{
    let (model, barred) = (layout.earning.model, layout.is_barred);
    let mut near = proposed(bounds, start.known);
    if put_ranks(alloc, model, goals, &near.choices, barred, &mut near.ranks)? {
        return Ok(near);
    }
    near.choices = start.policy;
    put_ranks(alloc, model, goals, &near.choices, barred, &mut near.ranks)?;
    for s in 0..model.states() {
        if value_at(layout.known, s).is_none() {
            put(&mut near.upper, s, None);
        }
    }
    Ok(near)
}

/// Bounds where the states of an end component are a node, and a policy that comes from these to the choices that were picked.
fn on_ends(
    alloc: Global,
    sought: Sought<'_>,
    model: &Model,
    ends: &Ends,
    given: &[u32],
) -> Result<Bounds, Memory>
    requires { AreEndsOf model.now ends.now }
{
    let nodes = joined_nodes(alloc, model, ends, &[])?;
    let layout = Layout {
        nodes: &nodes,
        ..sought.layout
    };
    let mut bounds = Sought { layout, ..sought }.bounds(alloc, given)?;
    let picked = bounds.columns.picked(sought.dir);
    lead(alloc, model, ends, picked, &mut bounds.choices)?;
    Ok(bounds)
}

/// Bounds of the least rewards where the states of an end component of the model of free choices share one value.
fn joined(
    alloc: Global,
    sought: Sought<'_>,
    free: &Model,
    given: &[u32],
) -> Result<Bounds, Memory> {
    let ends = end_components(alloc, free)?;
    on_ends(alloc, sought, free, &ends, given)
}

/// Bounds of the least rewards, without ranks.
fn unranked(alloc: Global, sought: Sought<'_>, given: &[u32]) -> Result<Bounds, Memory> {
    if sought.layout.has_free() {
        let free = sought.layout.free_model(alloc)?;
        return joined(alloc, sought, &free, given);
    }
    sought.bounds(alloc, given)
}

/// Bounds of the least rewards.
fn least(
    alloc: Global,
    sought: Sought<'_>,
    goals: &Marks,
    start: Start,
) -> Result<ProposedReward, Memory>
    requires { length goals.now ≡ states_of sought.layout.earning.model.now }
{
    let bounds = unranked(alloc, sought, &start.policy)?;
    with_ranks(alloc, sought.layout, bounds, goals, start)
}

/// Bounds of the greatest rewards. No choice of a state of finite reward leads to one of infinite reward, and no end component is among these states
/// but for goals.
fn greatest(alloc: Global, sought: Sought<'_>, start: Start) -> Result<ProposedReward, Memory> {
    let bounds = sought.bounds(alloc, &start.policy)?;
    Ok(proposed(bounds, start.known))
}

/// Proposes bounds of the greatest or the least expected reward until a goal, under the reward name of place `name`, as multiples of 10 to the power
/// of -`digits` where the rows allow it, with a policy and ranks. A lower value of none is infinite; an upper one of none bounds nothing.
///
/// The graph decides where the reward is infinite. Elsewhere components are solved, successors first, as for the probability to reach a goal.
pub fn propose_reward(
    alloc: Global,
    model: &Model,
    name: u32,
    goals: &Marks,
    dir: Dir,
    digits: u32,
) -> Result<ProposedReward, Memory>
    requires goals { length goals.now ≡ states_of model.now }
{
    model.known();
    let start = start_of(alloc, model, goals, dir)?;
    let settled = settled_states(alloc, model.states(), goals, &start.finite)?;
    let nodes = single_nodes(alloc, model.states())?;
    let earning = Earning {
        model,
        name: Some(name),
        is_negated: false,
    };
    let sought = Sought {
        layout: Layout {
            earning,
            known: &settled.known,
            is_barred: &settled.is_infinite,
            ..Layout::new(earning, &nodes)
        },
        dir,
        least: Some(0),
        greatest: None,
        scale: Scale {
            digits: digits.min(MOST_DIGITS),
            room: 0,
        },
    };
    match dir {
        Dir::Max => greatest(alloc, sought, start),
        Dir::Min => least(alloc, sought, goals, start),
    }
}
