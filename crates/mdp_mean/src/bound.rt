ghost use Rattle.std.specs.{Prelude.{◌≡◌, ◌<◌, length, Some, slice_index}, Result.{result_ok}};
ghost use Rattle.mdp_wide.specs.declared.too_wide.Kind.TheVariants.{Compare};
ghost use Rattle.mdp_spec.specs.Mdp.{states_of};
ghost use Rattle.mdp_mean.specs.{Code.{joining_in}, Faults.{placed_at, Answers}, Join.{written_bound}, Terms.{written_moved, bound_by}};

use crate::errors::{JoinError, JoinPlace};
use crate::joining::Joining;
use mdp_num::{Frac, Wide};
use mdp_rows::Dir;
use mdp_wide::Kind;
use std::alloc::Global;

/// `value`, moved up by `by`, or for the least mean payoff down.
fn moved(dir: Dir, value: &Frac, by: &Frac) -> Result<Frac, Wide>
    ensures { result_ok result ≡ written_moved dir value.now by.now }
{
    match dir {
        Dir::Max => value.add(by),
        Dir::Min => value.sub(by),
    }
}

/// The bound of state `s`: its inner bias, moved by the excess for each step.
fn bound_at(join: &Joining<'_>, excess: &Frac, s: u32) -> Result<Frac, Wide>
    requires state { s < states_of join.now.model.now }
    ensures { result_ok result ≡ bound_by (joining_in join.now) excess.now s }
{
    let by = excess.mul(&join.steps[s as usize])?;
    moved(join.dir, &join.inner[s as usize], &by)
}

/// A step for state `s` of the policy.
fn at_state(step: Result<Frac, Wide>, policy: &[u32], s: u32) -> Result<Frac, JoinError>
    requires { s < length policy.now }
    ensures { result ≡ placed_at Compare (Some s) (Some (slice_index policy.now s)) step }
{
    match step {
        Ok(value) => Ok(value),
        Err(Wide) => Err(JoinError::TooWide(JoinPlace {
            kind: Kind::Compare,
            state: Some(s),
            choice: Some(policy[s as usize]),
        })),
    }
}

/// The bound of all states, or the first place at which a written term is past width.
pub(crate) fn bound_of(
    alloc: Global,
    join: &Joining<'_>,
    excess: &Frac,
) -> Result<Vec<Frac>, JoinError>
    ensures { Answers (λ bound. bound.items) result (written_bound (joining_in join.now) excess.now) }
{
    let mut values = Vec::new(alloc);
    for s in 0..join.model.states() {
        let bound = at_state(bound_at(join, excess, s), join.policy, s)?;
        values.push(bound)?;
    }
    Ok(values)
}
