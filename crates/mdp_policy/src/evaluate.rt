ghost use Rattle.std.specs.{Prelude.{ℕ, List, [], ◌∷◌, ◌≡◌, ◌<◌, length, Ok, IfOk}, Result.{result_ok}};
ghost use Rattle.mdp_spec.specs.{Mdp.{states_of}, Tree.{IsPolicy}};
ghost use Rattle.mdp_elim.specs.System.{Leaves};
ghost use Rattle.mdp_wide.specs.declared.too_wide.Kind.TheVariants.{Evaluate};
ghost use Rattle.mdp_reach.specs.Query.{policy_rows};
ghost use Rattle.mdp_policy.specs.Written.{is_under_way, goal_value, goal_values, constant_of, constants, value_by, values_by, eliminated, evaluated};
ghost use Rattle.mdp_policy_iteration.specs.Faults.{Answers};

use mdp_elim::{ElimError, solve_leaving};
use mdp_num::{Frac, Wide};
use mdp_policy_iteration::{NodePlace, RoundError, at_node, outer_sum};
use mdp_rows::{Marks, Model, PolicyRows};
use mdp_wide::Kind;
use std::alloc::{AllocError, Global};
use std::slice;

/// A policy, its goals, and the marks of the states from which it can reach one.
#[derive(Clone, Copy)]
pub(crate) struct Evaluation<'m, 'k> {
    pub model: &'m Model,
    pub goals: &'m Marks,
    pub marks: &'k Marks,
    pub policy: &'m [u32],
    ghost goals_each: { length goals.now ≡ states_of model.now },
    ghost marks_each: { length marks.now ≡ states_of model.now },
    ghost chosen: { IsPolicy model.now policy.now },
}

impl Evaluation<'_, '_> {
    ghost use Rattle.mdp_policy.specs.Queries.{for_policy, states_under_way, AllLeave};

    /// Whether state `s` is no goal and is marked.
    fn is_under_way(self, s: u32) -> bool
        requires { s < states_of self.model.now }
        ensures { result ≡ is_under_way self.entry.goals.now self.entry.marks.now s }
    {
        !self.goals.at(s) && self.marks.at(s)
    }

    /// The states that are no goals and are marked.
    pub(crate) fn under_way(self, alloc: Global) -> Result<Marks, AllocError>
        ensures { IfOk result (λ marks. marks ≡ states_under_way self.entry) }
    {
        let mut marks = Vec::new(alloc);
        for s in 0..self.model.states() {
            marks.push(self.is_under_way(s))?;
        }
        Ok(Marks::from_values(marks))
    }

    /// 1 at a goal, 0 elsewhere.
    fn goal_value(self, s: u32) -> Frac
        requires { s < states_of self.model.now }
        ensures { result ≡ goal_value self.entry.goals.now s }
    {
        if self.goals.at(s) {
            Frac::whole(1)
        } else {
            Frac::whole(0)
        }
    }

    /// 1 at goals, 0 elsewhere.
    fn goal_values(self, alloc: Global) -> Result<Vec<Frac>, AllocError>
        ensures { IfOk result (λ values. values.items ≡ goal_values self.entry.model.now self.entry.goals.now) }
    {
        let mut values = Vec::new(alloc);
        for s in 0..self.model.states() {
            values.push(self.goal_value(s))?;
        }
        Ok(values)
    }

    /// The constant of state `s`: under way the sum over the entries to states that aren't.
    fn constant_of(self, active: &Marks, values: &[Frac], s: u32) -> Result<Frac, Wide>
        requires state { s < states_of self.model.now }
        requires active { active.now ≡ states_under_way self }
        requires values { values.now ≡ goal_values self.model.now self.goals.now }
        ensures { result_ok result ≡ for_policy self.entry constant_of s }
    {
        if !self.is_under_way(s) {
            return Ok(Frac::whole(0));
        }
        let row = self.model.row(s, self.policy[s as usize]);
        outer_sum(row, active, &Frac::whole(0), values)
    }

    /// The constants of all states.
    fn constants(self, alloc: Global, active: &Marks) -> Result<Vec<Frac>, RoundError>
        requires { active.now ≡ states_under_way self }
        ensures { Answers (λ constants. constants.items) result (for_policy self.entry constants) }
    {
        let values = self.goal_values(alloc)?;
        let mut constants = Vec::new(alloc);
        for s in 0..self.model.states() {
            let constant = at_node(self.constant_of(active, &values, s), self.policy, s)?;
            constants.push(constant)?;
        }
        Ok(constants)
    }

    /// 1 at a goal, and what was solved for elsewhere.
    fn value_by(self, solution: &[Frac], s: u32) -> Frac
        requires state { s < states_of self.model.now }
        requires solution { length solution.now ≡ states_of self.model.now }
        ensures { result ≡ value_by self.entry.goals.now solution.now s }
    {
        if self.goals.at(s) {
            Frac::whole(1)
        } else {
            solution[s as usize]
        }
    }

    /// The values of all states.
    fn values_by(self, alloc: Global, solution: &[Frac]) -> Result<Vec<Frac>, AllocError>
        requires { length solution.now ≡ states_of self.model.now }
        ensures { IfOk result (λ values. values.items ≡ values_by self.entry.model.now self.entry.goals.now solution.now) }
    {
        let mut values = Vec::new(alloc);
        for s in 0..self.model.states() {
            values.push(self.value_by(solution, s))?;
        }
        Ok(values)
    }

    /// The solution of the policy's system.
    fn solution(
        self,
        alloc: Global,
        active: &Marks,
        constants: &Vec<Frac>,
    ) -> Result<Vec<Frac>, RoundError>
        requires leaves { (ranks : List ℕ) × Leaves (policy_rows self.model.now self.policy.now) active.now ranks }
        requires active { active.now ≡ states_under_way self }
        requires constants { length constants.now.items ≡ states_of self.model.now }
        ensures value { Answers (λ x. x.items ∷ []) result (for_policy self.entry eliminated constants.now.items) }
        ensures count { IfOk result (λ x. length x.items ≡ states_of self.entry.model.now) }
    {
        let rows = PolicyRows {
            model: self.model,
            policy: self.policy,
        };
        match solve_leaving(alloc, &rows, active, slice::from_ref(constants)) {
            Ok(solutions) => {
                let mut solutions = solutions;
                Ok(solutions.remove(0))
            }
            Err(ElimError::TooWide(state)) => Err(RoundError::TooWide(NodePlace {
                kind: Kind::Evaluate,
                node: state,
                choice: self.policy[state as usize],
            })),
            Err(ElimError::Memory) => Err(RoundError::Memory),
        }
    }

    /// The values of the policy.
    pub(crate) fn values(self, alloc: Global) -> Result<Vec<Frac>, RoundError>
        requires { AllLeave self }
        ensures { Answers (λ values. values.items) result (for_policy self.entry evaluated) }
    {
        let active = self.under_way(alloc)?;
        let constants = self.constants(alloc, &active)?;
        let solution = self.solution(alloc, &active, &constants)?;
        Ok(self.values_by(alloc, &solution)?)
    }
}
