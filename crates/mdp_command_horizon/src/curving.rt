ghost use Rattle.std.specs.Prelude.{◌≡◌, ◌⊎◌, ◌≤◌, option_copied, Err, IfOk};
ghost use Rattle.mdp_command.specs.Prelude.{no_memory, said};
ghost use Rattle.mdp_command_horizon.specs.{CurveDue.{IsUntilCurveDue, IsTotalCurveDue}, CurvePrinted.{IsUntilCurvePrinted, IsTotalCurvePrinted}};

use crate::answering::{states_that_stay, states_with, stay_word};
use crate::laws::horizon_curve_law;
use mdp_horizon::{Claim, total_curve, until_curve, write_curve};
use mdp_job::Refusal;
use mdp_rows::{Dir, Model};
use std::alloc::Global;

/// Bounds of the best probability of coming from the initial state, by way of states with the label `stay` or any states, to states with `label`,
/// within each number of steps from 0 to `steps`. It's never too wide, and makes no table of choices. The labels are looked up first, then the
/// initial state.
#[tactic(auto, using(mdp_text::proofs::InitialState::initial_below))]
pub fn until_curve_query(
    alloc: Global,
    model: &Model,
    dir: Dir,
    stay: Option<&[u8]>,
    label: &[u8],
    steps: u32,
    digits: u32,
) -> Result<Vec<u8>, Refusal>
    requires { digits ≤ 30 }
    ensures due { (said result ≡ Err no_memory) ⊎ IsUntilCurveDue dir (option_copied stay.entry) label.now steps digits model.now (said result) }
    ensures printed { IfOk (said result) (IsUntilCurvePrinted dir (option_copied stay.entry) label.now steps digits model.now) }
{
    model.known();
    horizon_curve_law();
    let stays = states_that_stay(alloc, model, stay)?;
    let goals = states_with(alloc, model, label)?;
    let Some(start) = model.initial() else {
        return Err(Refusal::QueryInit);
    };
    let curve = until_curve(alloc, model, dir, &stays, &goals, start, steps, digits)?;
    let claim = Claim::Until(stay_word(stay), label);
    let mut text = Vec::new(alloc);
    write_curve(dir, claim, start, &curve, &mut text)?;
    Ok(text)
}

/// The same of the best total reward of this name, which is looked up first. A value that would be too wide is missing.
#[tactic(auto, using(mdp_text::proofs::InitialState::initial_below))]
pub fn total_curve_query(
    alloc: Global,
    model: &Model,
    dir: Dir,
    name: &[u8],
    steps: u32,
    digits: u32,
) -> Result<Vec<u8>, Refusal>
    requires { digits ≤ 30 }
    ensures due { (said result ≡ Err no_memory) ⊎ IsTotalCurveDue dir name.now steps digits model.now (said result) }
    ensures printed { IfOk (said result) (IsTotalCurvePrinted dir name.now steps digits model.now) }
{
    model.known();
    horizon_curve_law();
    let Some(place) = model.reward_named(name) else {
        return Err(Refusal::QueryReward);
    };
    let Some(start) = model.initial() else {
        return Err(Refusal::QueryInit);
    };
    let curve = total_curve(alloc, model, dir, place, start, steps, digits)?;
    let mut text = Vec::new(alloc);
    write_curve(dir, Claim::Total(name), start, &curve, &mut text)?;
    Ok(text)
}
