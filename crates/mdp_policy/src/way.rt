ghost use Rattle.std.specs.Prelude.{◌≡◌, ◌<◌, length, slice_index, option_copied, IfOk, IfSome, Some, None};
ghost use Rattle.mdp_spec.specs.{Mdp.{states_of}, Tree.{IsPolicy}, Sub.{policy_on}};
ghost use Rattle.mdp_policy.specs.{Bounds.{PolicyBound, AreGreatest, Raises, Lowers}, Answer.{GivesOn, plain}};

use crate::value::{PolicyValue, reach_value};
use mdp_rows::{Marks, Model};
use mdp_wide::SolveError;
use std::alloc::{AllocError, Global};

/// The policy's choice at state `s` as it is read on the way: its own where the state is a goal or stays, and else 0.
fn choice_on(stay: &Marks, goals: &Marks, policy: &[u32], s: u32) -> u32
    requires stay { s < length stay.now }
    requires goals { s < length goals.now }
    requires policy { s < length policy.now }
    ensures { result ≡ slice_index (policy_on goals.now stay.now policy.now) s }
{
    if goals.at(s) || stay.at(s) {
        policy[s as usize]
    } else {
        0
    }
}

/// The policy as it is read on the way.
fn policy_on(
    alloc: Global,
    model: &Model,
    stay: &Marks,
    goals: &Marks,
    policy: &[u32],
) -> Result<Vec<u32>, AllocError>
    requires stay { length stay.now ≡ states_of model.now }
    requires goals { length goals.now ≡ states_of model.now }
    requires policy { IsPolicy model.now policy.now }
    ensures { IfOk result (λ choices. choices.items ≡ policy_on goals.now stay.now policy.now) }
{
    let mut choices = Vec::new(alloc);
    for s in 0..model.states() {
        choices.push(choice_on(stay, goals, policy, s))?;
    }
    Ok(choices)
}

/// The value of a policy for coming to a goal by way of states that stay: for reaching one, where any other state is left with a loop.
fn until_value(
    alloc: Global,
    model: &Model,
    stay: &Marks,
    goals: &Marks,
    policy: &[u32],
) -> Result<PolicyValue, SolveError>
    requires stay { length stay.now ≡ states_of model.now }
    requires goals { length goals.now ≡ states_of model.now }
    requires policy { IsPolicy model.now policy.now }
    ensures written { GivesOn model.now (Some stay.now) goals.now policy.now result }
    ensures each { IfOk result (λ v. length v.values.items ≡ states_of model.now) }
    ensures bound { IfOk result (λ v. PolicyBound model.now (Some stay.now) goals.now v.values.items policy.now) }
    ensures none_up { IfOk result (λ v. v.up ≡ None → AreGreatest model.now (Some stay.now) goals.now v.values.items policy.now) }
    ensures up { IfOk result (λ v. Raises model.now (Some stay.now) goals.now (plain v)) }
    ensures down { IfOk result (λ v. Lowers model.now (Some stay.now) goals.now (plain v)) }
{
    model.known();
    let way = model.cut(alloc, stay, goals)?;
    let choices = policy_on(alloc, model, stay, goals, policy)?;
    reach_value(alloc, &way, goals, &choices)
}

/// The value of a memoryless policy, one choice for each state: for reaching a goal, or, where the states that stay are given, for coming to one by
/// way of these alone; and the first states at which a choice is strictly better than the value, which are no goals and, where it is asked, stay.
/// `TooWide` is the first written term past width.
pub fn value_of(
    alloc: Global,
    model: &Model,
    stay: Option<&Marks>,
    goals: &Marks,
    policy: &[u32],
) -> Result<PolicyValue, SolveError>
    requires stay { IfSome stay (λ marks. length marks.now ≡ states_of model.now) }
    requires goals { length goals.now ≡ states_of model.now }
    requires policy { IsPolicy model.now policy.now }
    ensures written { GivesOn model.now (option_copied stay.entry) goals.now policy.now result }
    ensures each { IfOk result (λ v. length v.values.items ≡ states_of model.now) }
    ensures bound { IfOk result (λ v. PolicyBound model.now (option_copied stay.entry) goals.now v.values.items policy.now) }
    ensures none_up { IfOk result (λ v. v.up ≡ None → AreGreatest model.now (option_copied stay.entry) goals.now v.values.items policy.now) }
    ensures up { IfOk result (λ v. Raises model.now (option_copied stay.entry) goals.now (plain v)) }
    ensures down { IfOk result (λ v. Lowers model.now (option_copied stay.entry) goals.now (plain v)) }
{
    match stay {
        None => reach_value(alloc, model, goals, policy),
        Some(stay) => until_value(alloc, model, stay, goals, policy),
    }
}
