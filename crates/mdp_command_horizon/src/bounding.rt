ghost use Rattle.std.specs.Prelude.{◌≡◌, ◌⊎◌, ◌≤◌, option_copied, Err, IfOk};
ghost use Rattle.mdp_command.specs.Prelude.{no_memory, said};
ghost use Rattle.mdp_command_horizon.specs.BoundsDue.{IsUntilBoundsDue, IsTotalBoundsDue};
ghost use Rattle.mdp_command_horizon.specs.BoundsPrinted.{AreUntilBoundsPrinted, AreTotalBoundsPrinted};

use crate::answering::{states_that_stay, states_with, stay_word};
use crate::laws::horizon_bounds_law;
use crate::tables::is_too_long;
use mdp_horizon::{Claim, total_bounds, until_bounds, write_horizon_bounds};
use mdp_job::Refusal;
use mdp_rows::{Dir, Model};
use std::alloc::Global;

/// Bounds of the best probability of coming, from states with the label `stay` or any states, to states with `label` within so many steps: lower and
/// upper values that are rounded outward to so many digits, from 1 to 30, and a table. It's never too wide. The labels are looked up first, then it
/// is asked whether the table would be too large.
pub fn until_bounds_query(
    alloc: Global,
    model: &Model,
    dir: Dir,
    stay: Option<&[u8]>,
    label: &[u8],
    steps: u32,
    digits: u32,
) -> Result<Vec<u8>, Refusal>
    requires { digits ≤ 30 }
    ensures due { (said result ≡ Err no_memory) ⊎ IsUntilBoundsDue dir (option_copied stay.entry) label.now steps digits model.now (said result) }
    ensures printed { IfOk (said result) (AreUntilBoundsPrinted dir (option_copied stay.entry) label.now steps digits model.now) }
{
    model.known();
    horizon_bounds_law();
    let stays = states_that_stay(alloc, model, stay)?;
    let goals = states_with(alloc, model, label)?;
    if is_too_long(model, steps) {
        return Err(Refusal::QuerySteps);
    }
    let found = until_bounds(alloc, model, dir, &stays, &goals, steps, digits)?;
    let claim = Claim::Until(stay_word(stay), label);
    let mut text = Vec::new(alloc);
    write_horizon_bounds(model, dir, claim, &found, &mut text)?;
    Ok(text)
}

/// The same of the best total reward of this name within so many steps, which is looked up first. A value that would be too wide is missing.
pub fn total_bounds_query(
    alloc: Global,
    model: &Model,
    dir: Dir,
    name: &[u8],
    steps: u32,
    digits: u32,
) -> Result<Vec<u8>, Refusal>
    requires { digits ≤ 30 }
    ensures due { (said result ≡ Err no_memory) ⊎ IsTotalBoundsDue dir name.now steps digits model.now (said result) }
    ensures printed { IfOk (said result) (AreTotalBoundsPrinted dir name.now steps digits model.now) }
{
    model.known();
    horizon_bounds_law();
    let Some(place) = model.reward_named(name) else {
        return Err(Refusal::QueryReward);
    };
    if is_too_long(model, steps) {
        return Err(Refusal::QuerySteps);
    }
    let found = total_bounds(alloc, model, dir, place, steps, digits)?;
    let mut text = Vec::new(alloc);
    write_horizon_bounds(model, dir, Claim::Total(name), &found, &mut text)?;
    Ok(text)
}
