ghost use Rattle.std.specs.Prelude.{◌≡◌, ◌<◌, false, length, IfOk};
ghost use Rattle.mdp_spec.specs.Mdp.{states_of};
ghost use Rattle.mdp_rows.specs.Negative.{has_negative};
ghost use Rattle.mdp_bounds.specs.Reward.{IsTrivialReward, IsRewardBounds};

use crate::trivial_values::zeros_of;
use mdp_bounds::RewardBoundsCert;
use mdp_graph::{along_law, meet_law, rounds_law, sure_all_law};
use mdp_num::Memory;
use mdp_reward::{ranks_of, start_of};
use mdp_rows::{Dir, Marks, Model};
use std::alloc::Global;

/// The bounds of the greatest, or the least, rewards until a goal that say nothing of numbers, under the reward name of place `name`: 0 and infinite
/// at the states whose reward is finite by the graph alone, 0 and 0 at goals, infinite and infinite at the others, with the policy and the ranks that
/// show it. They hold for every model without rewards below 0, and take no arithmetic. An `Err` is want of memory.
pub fn trivial_reward(
    alloc: Global,
    model: &Model,
    name: u32,
    goals: &Marks,
    dir: Dir,
) -> Result<RewardBoundsCert, Memory>
    requires name { name < length model.now.names }
    requires goals { length goals.now ≡ states_of model.now }
    requires none_negative { has_negative model.now name ≡ false }
    ensures trivial { IfOk result (λ cert. IsTrivialReward dir model.now name goals.now cert.lower.items cert.upper.items cert.choices.items
        cert.ranks.items) }
    ensures accepted { IfOk result (λ cert. IsRewardBounds dir model.now name goals.now cert.lower.items cert.upper.items cert.choices.items
        cert.ranks.items) }
    ensures lower { IfOk result (λ cert. length cert.lower.items ≡ states_of model.now) }
    ensures upper { IfOk result (λ cert. length cert.upper.items ≡ states_of model.now) }
    ensures choices { IfOk result (λ cert. length cert.choices.items ≡ states_of model.now) }
    ensures ranks { IfOk result (λ cert. length cert.ranks.items ≡ states_of model.now) }
{
    model.known();
    along_law();
    meet_law();
    rounds_law();
    sure_all_law();
    let start = start_of(alloc, model, goals, dir)?;
    let finite = start.finite;
    let choices = start.policy;
    let ranks = ranks_of(alloc, model, goals, &finite, dir, start.known, &choices)?;
    let lower = zeros_of(alloc, model.states(), &finite)?;
    let upper = zeros_of(alloc, model.states(), goals)?;
    Ok(RewardBoundsCert {
        lower,
        upper,
        choices,
        ranks,
    })
}
