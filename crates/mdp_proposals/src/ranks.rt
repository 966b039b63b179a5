//! The ranks of states: how many steps it is from them to a goal.

ghost use Rattle.std.specs.{Prelude.{◌≡◌, ◌<◌, length, IfOk}, List.{All}};
ghost use Rattle.mdp_spec.specs.Mdp.{states_of};

use mdp_graph::{Edges, must_meet, ranks_by};
use mdp_num::Memory;
use mdp_refinement::{flag_at, item_at, number_at, put};
use mdp_rows::{Marks, Model};
use std::alloc::{AllocError, Global};

/// Where a policy leads from a state: nowhere from a blocked one.
fn targets_at<'a>(model: &'a Model, policy: &[u32], is_blocked: &[bool], s: u32) -> &'a [u32]
    requires { s < states_of model.now }
    ensures { All (λ t. t < states_of model.now) result.now }
{
    let choice = number_at(policy, s);
    if flag_at(is_blocked, s) || choice >= model.choices(s) {
        return &[];
    }
    model.row(s, choice).targets
}

/// For the greatest values: the least number of steps from each state to a goal by a policy, where no step begins at a blocked state; none where
/// there is no such way.
fn max_ranks(
    alloc: Global,
    model: &Model,
    goals: &Marks,
    policy: &[u32],
    is_blocked: &[bool],
) -> Result<Vec<Option<u32>>, AllocError>
    requires { length goals.now ≡ states_of model.now }
{
    let mut edges = Edges::none(alloc, model.states());
    for s in 0..model.states() {
        edges.push_row(s, targets_at(model, policy, is_blocked, s))?;
    }
    let leading = edges.sorted(alloc)?;
    ranks_by(alloc, &leading, goals, model.states())
}

/// Puts the ranks along a policy to the states that aren't blocked, 0 where there is none. Whether each of them has one.
pub(crate) fn put_ranks(
    alloc: Global,
    model: &Model,
    goals: &Marks,
    policy: &[u32],
    is_blocked: &[bool],
    ranks: &mut [u32],
) -> Result<bool, AllocError>
    requires { length goals.now ≡ states_of model.now }
{
    let found = max_ranks(alloc, model, goals, policy, is_blocked)?;
    let mut are_all = true;
    for s in 0..model.states() {
        if !flag_at(is_blocked, s) {
            let rank = item_at(&found, s as usize, None);
            put(ranks, s, rank.unwrap_or(0));
            are_all = are_all && rank.is_some();
        }
    }
    Ok(are_all)
}

/// The goals and the states of lower value 0.
fn ends_of(alloc: Global, states: u32, goals: &Marks, lower: &[i128]) -> Result<Marks, AllocError>
    requires { length goals.now ≡ states }
    ensures { IfOk result (λ ends. length ends ≡ states) }
{
    let mut is_end = vec![in alloc; false; states as usize]?;
    for s in 0..states {
        is_end[s as usize] = goals.at(s) || item_at(lower, s as usize, 0) == 0;
    }
    Ok(Marks::from_values(is_end))
}

/// For the least values: the ranks by which goals and states of lower value 0 are met whatever is chosen.
pub(crate) fn min_ranks(
    alloc: Global,
    model: &Model,
    goals: &Marks,
    lower: &[i128],
) -> Result<Vec<u32>, Memory>
    requires { length goals.now ≡ states_of model.now }
{
    model.known();
    let ends = ends_of(alloc, model.states(), goals, lower)?;
    let pass = must_meet(alloc, model, &ends)?;
    Ok(pass.ranks)
}
