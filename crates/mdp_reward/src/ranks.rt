ghost use Rattle.std.specs.Prelude.{◌≡◌, ◌<◌, length, slice_index, if◌then◌else◌, IfOk};
ghost use Rattle.mdp_spec.specs.{Mdp.{states_of}, Tree.{IsPolicy, is_marked}};
ghost use Rattle.mdp_reward.specs.Query.{split, AreMinRanks, AreRanks};

use mdp_graph::along;
use mdp_num::Memory;
use mdp_rows::{Dir, Marks, Model, PolicyRows};
use std::alloc::{AllocError, Global};

/// One list at a marked state, another elsewhere.
fn split_at(marks: &Marks, inside: &[u32], outside: &[u32], s: u32) -> u32
    requires marks { s < length marks.now }
    requires inside { s < length inside.now }
    requires outside { s < length outside.now }
    ensures { result ≡ (if is_marked marks.now s then slice_index inside.now s else slice_index outside.now s) }
{
    if marks.at(s) {
        inside[s as usize]
    } else {
        outside[s as usize]
    }
}

/// One list at the marked states, another at the others.
pub(crate) fn split(
    alloc: Global,
    model: &Model,
    marks: &Marks,
    inside: &[u32],
    outside: &[u32],
) -> Result<Vec<u32>, AllocError>
    requires marks { length marks.now ≡ states_of model.now }
    requires inside { length inside.now ≡ states_of model.now }
    requires outside { length outside.now ≡ states_of model.now }
    ensures { IfOk result (λ both. both.items ≡ split model.now marks.now inside.now outside.now) }
{
    let mut both = Vec::new(alloc);
    for s in 0..model.states() {
        both.push(split_at(marks, inside, outside, s))?;
    }
    Ok(both)
}

/// At finite states the ranks along the policy to the goals, at the others those that are known.
fn min_ranks(
    alloc: Global,
    model: &Model,
    goals: &Marks,
    finite: &Marks,
    known: &[u32],
    policy: &[u32],
) -> Result<Vec<u32>, Memory>
    requires goals { length goals.now ≡ states_of model.now }
    requires finite { length finite.now ≡ states_of model.now }
    requires known { length known.now ≡ states_of model.now }
    requires policy { IsPolicy model.now policy.now }
    ensures { IfOk result (λ ranks. AreMinRanks model.now goals.now finite.now known.now policy.now ranks.items) }
{
    let rows = PolicyRows { model, policy };
    let pass = along(alloc, &rows, goals)?;
    let ranks = split(alloc, model, finite, &pass.ranks, known)?;
    Ok(ranks)
}

/// The ranks of a certificate with this policy, one for each state; `known` are those of the start. An `Err` is want of memory.
pub fn ranks_of(
    alloc: Global,
    model: &Model,
    goals: &Marks,
    finite: &Marks,
    dir: Dir,
    known: Vec<u32>,
    policy: &[u32],
) -> Result<Vec<u32>, Memory>
    requires goals { length goals.now ≡ states_of model.now }
    requires finite { length finite.now ≡ states_of model.now }
    requires known { length known.items ≡ states_of model.now }
    requires policy { IsPolicy model.now policy.now }
    ensures { IfOk result (λ ranks. AreRanks dir model.now goals.now finite.now known.items policy.now ranks.items) }
{
    match dir {
        Dir::Max => Ok(known),
        Dir::Min => min_ranks(alloc, model, goals, finite, &known, policy),
    }
}
