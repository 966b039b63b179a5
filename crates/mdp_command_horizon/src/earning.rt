ghost use Rattle.std.specs.Prelude.{◌≡◌, ◌⊎◌, Err, IfOk};
ghost use Rattle.mdp_command.specs.Prelude.{no_memory, said};
ghost use Rattle.mdp_command_horizon.specs.{Due.{IsTotalDue}, Printed.{IsTotalPrinted}};

use crate::laws::total_text_law;
use crate::tables::{is_too_long, refusal_of};
use mdp_horizon::{total, write_total};
use mdp_job::Refusal;
use mdp_rows::{Dir, Model};
use std::alloc::Global;

/// The best total rewards of this name within so many steps, and a choice of each state for each step: the name is looked up first, then it is asked
/// whether the table would be too large.
pub fn total_query(
    alloc: Global,
    model: &Model,
    dir: Dir,
    name: &[u8],
    steps: u32,
) -> Result<Vec<u8>, Refusal>
    ensures due { (said result ≡ Err no_memory) ⊎ IsTotalDue dir name.now steps model.now (said result) }
    ensures printed { IfOk (said result) (IsTotalPrinted dir name.now steps model.now) }
{
    model.known();
    total_text_law();
    let Some(place) = model.reward_named(name) else {
        return Err(Refusal::QueryReward);
    };
    if is_too_long(model, steps) {
        return Err(Refusal::QuerySteps);
    }
    let found = match total(alloc, model, dir, place, steps) {
        Ok(found) => found,
        Err(error) => return Err(refusal_of(error)),
    };
    let mut text = Vec::new(alloc);
    write_total(model, dir, name, &found, &mut text)?;
    Ok(text)
}
