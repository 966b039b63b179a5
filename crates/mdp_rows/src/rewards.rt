ghost use Rattle.std.specs.Prelude.{◌≡◌, ◌⊎◌, length, OnOk, IfErr};
ghost use Rattle.mdp_math.specs.Written.{written_add};
ghost use Rattle.mdp_rows.specs.Draft.{kept_sum, summed_rewards};

use crate::error::RowsError;
use crate::limits::MAX_TERM;
use crate::terms::{den_of, num_of};
use mdp_num::Frac;

/// The reward of a state and of its choice together, where both lowest terms have magnitude at most 10^36.
fn add_reward(own: &Frac, given: &Frac) -> Result<Frac, RowsError>
    ensures { result ≡ kept_sum (written_add own.now given.now) }
{
    let Ok(sum) = own.add(given) else {
        return Err(RowsError::Large);
    };
    if num_of(&sum) <= MAX_TERM && den_of(&sum) <= MAX_TERM {
        Ok(sum)
    } else {
        Err(RowsError::Large)
    }
}

/// Puts the sums of a state's and a choice's rewards, name by name, in place of what stands in `sums`.
pub fn add_rewards(sums: &mut Vec<Frac>, own: &[Frac], given: &[Frac]) -> Result<(), RowsError>
    requires { length own.now ≡ length given.now }
    ensures added { OnOk result (summed_rewards own.now given.now ≡ Ok sums.new.items) }
    ensures refused { IfErr result (λ e. (e ≡ RowsError.Memory) ⊎ (summed_rewards own.now given.now ≡ Err e)) }
{
    sums.clear();
    for i in 0..own.len() {
        let sum = add_reward(&own[i], &given[i])?;
        if sums.push(sum).is_err() {
            return Err(RowsError::Memory);
        }
    }
    Ok(())
}
