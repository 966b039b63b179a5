ghost use Rattle.std.specs.{Prelude.{ℕ, List, [], ◌∷◌, ◌≡◌, ◌<◌, length, Some, IfOk, slice_index}, Result.{result_ok}};
ghost use Rattle.mdp_elim.specs.System.{is_active, Leaves};
ghost use Rattle.mdp_wide.specs.declared.too_wide.Kind.TheVariants.{Evaluate};
ghost use Rattle.mdp_policy_iteration.specs.Places.{up_to};
ghost use Rattle.mdp_spec.specs.Mdp.{states_of};
ghost use Rattle.mdp_mean.specs.{Code.{joining_in}, Faults.{placed_at, Answers}};
ghost use Rattle.mdp_mean.specs.Join.{constant, policy_rows, eliminated, filled_by, filled, written_bias};
ghost use Rattle.mdp_mean.specs.Terms.{constant_by};

use crate::errors::{JoinError, JoinPlace};
use crate::joining::Joining;
use mdp_elim::{ElimError, solve_leaving};
use mdp_num::{Frac, Wide};
use mdp_policy_iteration::outer_sum;
use mdp_rows::PolicyRows;
use mdp_wide::Kind;
use std::alloc::{AllocError, Global};

/// The constant of the equation of state `s`: its reward less its gain, and the sum over its entries to states that aren't active.
fn constant_at(join: &Joining<'_>, s: u32) -> Result<Frac, Wide>
    requires { s < states_of join.now.model.now }
    ensures { result_ok result ≡ constant_by (joining_in join.now) s (slice_index join.now.policy.now s) (is_active join.now.active.now s) }
{
    if !join.active.at(s) {
        return Ok(Frac::whole(0));
    }
    let choice = join.policy[s as usize];
    let reward = join.model.reward(join.name, s, choice);
    let earned = reward.sub(&join.gains[s as usize])?;
    outer_sum(join.model.row(s, choice), join.active, &earned, join.inner)
}

/// A step for state `s` of the policy.
fn at_state<T>(step: Result<T, Wide>, policy: &[u32], s: u32) -> Result<T, JoinError>
    requires { s < length policy.now }
    ensures { result ≡ placed_at Evaluate (Some s) (Some (slice_index policy.now s)) step }
{
    match step {
        Ok(value) => Ok(value),
        Err(Wide) => Err(JoinError::TooWide(JoinPlace {
            kind: Kind::Evaluate,
            state: Some(s),
            choice: Some(policy[s as usize]),
        })),
    }
}

/// The constants of all states.
fn constants_of(alloc: Global, join: &Joining<'_>) -> Result<Vec<Frac>, JoinError>
    ensures { Answers (λ constants. constants.items) result (up_to (constant (joining_in join.now)) (states_of join.now.model.now)) }
{
    join.model.known();
    let mut constants = Vec::new(alloc);
    for s in 0..join.model.states() {
        let constant = at_state(constant_at(join, s), join.policy, s)?;
        constants.push(constant)?;
    }
    Ok(constants)
}

/// The solution of the policy's system.
fn solution_of(
    alloc: Global,
    join: &Joining<'_>,
    constants: Vec<Frac>,
) -> Result<Vec<Frac>, JoinError>
    requires constants { length constants.items ≡ states_of join.now.model.now }
    requires leaves { (ranks : List ℕ) × Leaves (policy_rows (joining_in join.now)) join.now.active.now ranks }
    ensures value { Answers (λ x. x.items ∷ []) result (eliminated (joining_in join.now) constants.items) }
    ensures count { IfOk result (λ x. length x.items ≡ states_of join.now.model.now) }
{
    let rows = PolicyRows {
        model: join.model,
        policy: join.policy,
    };
    let mut columns = Vec::new(alloc);
    columns.push(constants)?;
    match solve_leaving(alloc, &rows, join.active, &columns) {
        Ok(solutions) => {
            let mut solutions = solutions;
            Ok(solutions.remove(0))
        }
        Err(ElimError::TooWide(state)) => Err(JoinError::TooWide(JoinPlace {
            kind: Kind::Evaluate,
            state: Some(state),
            choice: Some(join.policy[state as usize]),
        })),
        Err(ElimError::Memory) => Err(JoinError::Memory),
    }
}

/// The bias of state `s`: that of the solution where it is active, and the inner one elsewhere.
fn filled_value(join: &Joining<'_>, solution: &[Frac], s: u32) -> Frac
    requires state { s < states_of join.now.model.now }
    requires solution { length solution.now ≡ states_of join.now.model.now }
    ensures { result ≡ filled_by solution.now join.now.inner.now s (is_active join.now.active.now s) }
{
    if join.active.at(s) {
        solution[s as usize]
    } else {
        join.inner[s as usize]
    }
}

/// The bias of all states.
fn filled(alloc: Global, join: &Joining<'_>, solution: &[Frac]) -> Result<Vec<Frac>, AllocError>
    requires { length solution.now ≡ states_of join.now.model.now }
    ensures { IfOk result (λ values. values.items ≡ filled (joining_in join.now) solution.now) }
{
    let mut values = Vec::new(alloc);
    for s in 0..join.model.states() {
        values.push(filled_value(join, solution, s))?;
    }
    Ok(values)
}

/// The bias of the policy, or the first place at which a written term is past width.
pub(crate) fn bias_of(alloc: Global, join: &Joining<'_>) -> Result<Vec<Frac>, JoinError>
    requires leaves { (ranks : List ℕ) × Leaves (policy_rows (joining_in join.now)) join.now.active.now ranks }
    ensures { Answers (λ h. h.items) result (written_bias (joining_in join.now)) }
{
    let constants = constants_of(alloc, join)?;
    let solution = solution_of(alloc, join, constants)?;
    Ok(filled(alloc, join, &solution)?)
}
