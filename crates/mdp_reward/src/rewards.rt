ghost use Rattle.std.specs.Prelude.{◌≡◌, ◌<◌, length, IfOk};
ghost use Rattle.mdp_spec.specs.Mdp.{states_of};
ghost use Rattle.mdp_reward.specs.Query.{reward_by, rewards_of};

use mdp_num::Frac;
use mdp_rows::{Marks, Model};
use std::alloc::{AllocError, Global};

/// The value of a finite state; none of any other.
fn reward_by(finite: &Marks, values: &[Frac], s: u32) -> Option<Frac>
    requires finite { s < length finite.now }
    requires values { s < length values.now }
    ensures { result ≡ reward_by finite.now values.now s }
{
    if finite.at(s) {
        Some(values[s as usize])
    } else {
        None
    }
}

/// The values of a certificate: none where the state isn't finite.
pub(crate) fn rewards_of(
    alloc: Global,
    model: &Model,
    finite: &Marks,
    values: &[Frac],
) -> Result<Vec<Option<Frac>>, AllocError>
    requires finite { length finite.now ≡ states_of model.now }
    requires values { length values.now ≡ states_of model.now }
    ensures { IfOk result (λ rewards. rewards.items ≡ rewards_of model.now finite.now values.now) }
{
    let mut rewards = Vec::new(alloc);
    for s in 0..model.states() {
        rewards.push(reward_by(finite, values, s))?;
    }
    Ok(rewards)
}
