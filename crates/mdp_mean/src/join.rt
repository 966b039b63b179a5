ghost use Rattle.std.specs.Prelude.{ℕ, List, ◌≡◌, None};
ghost use Rattle.mdp_elim.specs.System.{Leaves};
ghost use Rattle.mdp_wide.specs.declared.too_wide.Kind.TheVariants.{Compare};
ghost use Rattle.mdp_mean.specs.{Code.{joining_in, shown}, Faults.{placed_at, Answers}, Join.{policy_rows, written_join}};

use crate::bias::bias_of;
use crate::bound::bound_of;
use crate::errors::{JoinError, JoinPlace};
use crate::excess::greatest_excess;
use crate::joining::Joining;
use mdp_farkas::spread_of;
use mdp_num::{Frac, Wide};
use mdp_wide::Kind;
use std::alloc::Global;

/// A bound and a bias for each state, and their spread.
#[derive(Drop)]
pub(crate) struct JoinedValues {
    pub(crate) bound: Vec<Frac>,
    pub(crate) bias: Vec<Frac>,
    pub(crate) spread: Frac,
}

/// A step for no state.
fn at_no_state(step: Result<Frac, Wide>) -> Result<Frac, JoinError>
    ensures { result ≡ placed_at Compare None None step }
{
    match step {
        Ok(value) => Ok(value),
        Err(Wide) => Err(JoinError::TooWide(JoinPlace {
            kind: Kind::Compare,
            state: None,
            choice: None,
        })),
    }
}

/// The bias of the policy, a bound, and their spread, or the first place at which a written term is past width.
pub(crate) fn joined(alloc: Global, join: &Joining<'_>) -> Result<JoinedValues, JoinError>
    requires leaves { (ranks : List ℕ) × Leaves (policy_rows (joining_in join.now)) join.now.active.now ranks }
    ensures { Answers shown result (written_join (joining_in join.now)) }
{
    let bias = bias_of(alloc, join)?;
    let excess = greatest_excess(join)?;
    let bound = bound_of(alloc, join, &excess)?;
    let spread = at_no_state(spread_of(&bound, &bias))?;
    Ok(JoinedValues {
        bound,
        bias,
        spread,
    })
}
