ghost use Rattle.std.specs.Prelude.{◌≡◌, ◌<◌, length, IfOk, Some, None};
ghost use Rattle.mdp_spec.specs.{Mdp.{states_of}, Tree.{IsPolicy}};
ghost use Rattle.mdp_policy.specs.{Bounds.{PolicyBound, AreGreatest, Raises, Lowers}, Written.{written_value}, Answer.{Gives, plain, Named}};
ghost use Rattle.mdp_policy.specs.Queries.{for_policy, AllLeave};
ghost use Rattle.mdp_policy_iteration.specs.Faults.{Answers};

use crate::compare::Comparison;
use crate::evaluate::Evaluation;
use mdp_elim::solution_law;
use mdp_graph::{along, along_law};
use mdp_num::Frac;
use mdp_policy_iteration::{NodePlace, RoundError};
use mdp_rows::{Dir, Marks, Model, PolicyRows};
use mdp_wide::{Part, SolveError, TooWide};
use std::alloc::Global;

/// A state, and a choice that is better there than the policy's.
#[derive(Clone, Copy)]
pub struct Change {
    pub state: u32,
    pub choice: u32,
}

/// The probabilities with which a policy comes to a goal, one for each state; the first change that raises one, and the first that lowers one.
#[derive(Drop)]
pub struct PolicyValue {
    pub values: Vec<Frac>,
    pub up: Option<Change>,
    pub down: Option<Change>,
}

/// The error at its place, with the policy.
fn named(alloc: Global, error: RoundError, policy: &[u32]) -> SolveError
    ensures { Named policy.now error result }
{
    let RoundError::TooWide(NodePlace { kind, node, choice }) = error else {
        return SolveError::Memory;
    };
    match policy.to_vec(alloc) {
        Ok(policy) => SolveError::TooWide(TooWide {
            part: Part::Whole,
            round: 0,
            policy,
            kind,
            state: Some(node),
            choice: Some(choice),
        }),
        Err(_) => SolveError::Memory,
    }
}

/// The values, and then the first changes.
fn evaluated(alloc: Global, evaluation: Evaluation<'_, '_>) -> Result<PolicyValue, RoundError>
    requires { AllLeave evaluation }
    ensures { Answers plain result (for_policy evaluation.entry written_value) }
{
    let values = evaluation.values(alloc)?;
    let up = Comparison {
        dir: Dir::Max,
        model: evaluation.model,
        goals: evaluation.goals,
        values: &values,
    }
    .first_change()?;
    let down = Comparison {
        dir: Dir::Min,
        model: evaluation.model,
        goals: evaluation.goals,
        values: &values,
    }
    .first_change()?;
    Ok(PolicyValue { values, up, down })
}

/// The value of a policy for reaching a goal: by state elimination, and then the first states at which a choice is strictly better than the
/// value (policy evaluation and policy improvement: Puterman 1994, section 7.2).
pub(crate) fn reach_value(
    alloc: Global,
    model: &Model,
    goals: &Marks,
    policy: &[u32],
) -> Result<PolicyValue, SolveError>
    requires goals { length goals.now ≡ states_of model.now }
    requires policy { IsPolicy model.now policy.now }
    ensures written { Gives model.now goals.now policy.now result }
    ensures each { IfOk result (λ v. length v.values.items ≡ states_of model.now) }
    ensures bound { IfOk result (λ v. PolicyBound model.now None goals.now v.values.items policy.now) }
    ensures none_up { IfOk result (λ v. v.up ≡ None → AreGreatest model.now None goals.now v.values.items policy.now) }
    ensures up { IfOk result (λ v. Raises model.now None goals.now (plain v)) }
    ensures down { IfOk result (λ v. Lowers model.now None goals.now (plain v)) }
    ensures up_in { IfOk result (λ v. (change : Change) → v.up ≡ Some change → change.state < states_of model.now) }
    ensures down_in { IfOk result (λ v. (change : Change) → v.down ≡ Some change → change.state < states_of model.now) }
{
    model.known();
    along_law();
    solution_law();
    let rows = PolicyRows { model, policy };
    let pass = along(alloc, &rows, goals)?;
    let marks = pass.marks;
    let evaluation = Evaluation {
        model,
        goals,
        marks: &marks,
        policy,
    };
    match evaluated(alloc, evaluation) {
        Ok(value) => Ok(value),
        Err(error) => Err(named(alloc, error, policy)),
    }
}
