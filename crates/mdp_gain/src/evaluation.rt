ghost use Rattle.std.specs.{Prelude.{◌≡◌, ◌<◌, length, map, pos, IfOk}, Result.{result_ok}, List.{All}};
ghost use Rattle.mdp_math.specs.Rational.{of_int, ◌+ℚ◌, ◌≤ℚ◌};
ghost use Rattle.mdp_spec.specs.Mdp.{value_at};
ghost use Rattle.mdp_wide.specs.declared.too_wide.Kind.TheVariants.{Evaluate};
ghost use Rattle.mdp_unichain.specs.{Chain.{AllLeadTo}, Component.{count, is_state, row_by}, Evaluation.{active, mean}, Sums.{written_bias}};
ghost use Rattle.mdp_unichain.specs.Written.{active_of, rewards_of, ones_of, columns_of, written_columns, written_values};
ghost use Rattle.mdp_gain.specs.Code.{component_in, values_in, HasEnds};
ghost use Rattle.mdp_policy_iteration.specs.Faults.{Answers};

use crate::chosen::Chosen;
use crate::component::EndComponent;
use crate::referred::Referred;
use crate::values::Values;
use mdp_elim::{ElimError, solution_law, solve_leaving};
use mdp_num::{Frac, Wide};
use mdp_policy_iteration::{NodePlace, RoundError, at_node};
use mdp_rows::{Marks, PolicyRows};
use mdp_wide::Kind;
use std::alloc::{AllocError, Global};

impl EndComponent<'_> {
    /// Whether state `s` is one of the component, and not `t`.
    fn is_active(&self, t: u32, s: u32) -> bool
        requires { s < count (component_in self.now) }
        ensures { result ≡ active (is_state (component_in self.now)) t s }
    {
        self.holds(s) && s != t
    }

    /// The states of the component but `t`.
    fn active_states(&self, alloc: Global, t: u32) -> Result<Marks, AllocError>
        ensures { IfOk result (λ marks. marks ≡ active_of (component_in self.now) t) }
    {
        let mut marks = Vec::new(alloc);
        for s in 0..self.count() {
            marks.push(self.is_active(t, s))?;
        }
        Ok(Marks::from_values(marks))
    }

    /// One step at each state.
    fn steps(&self, alloc: Global) -> Result<Vec<Frac>, AllocError>
        ensures { IfOk result (λ ones. ones.items ≡ ones_of (component_in self.now)) }
    {
        let mut ones = Vec::new(alloc);
        for _s in 0..self.count() {
            ones.push(Frac::whole(1))?;
        }
        Ok(ones)
    }
}

impl Chosen<'_> {
    /// What the policy earns at each state.
    fn rewards(&self, alloc: Global) -> Result<Vec<Frac>, AllocError>
        ensures { IfOk result (λ rewards. rewards.items ≡ rewards_of (component_in self.now.component) self.now.policy.now) }
    {
        let mut rewards = Vec::new(alloc);
        for s in 0..self.component.count() {
            rewards.push(self.component.reward(s, self.policy[s as usize]))?;
        }
        Ok(rewards)
    }
}

/// What is earned from each state until the reference, and the number of steps.
#[derive(Clone, Copy)]
struct Columns<'a> {
    of: Referred<'a>,
    earned: &'a [Frac],
    steps: &'a [Frac],
    ghost earned_each: { length earned.now ≡ count (component_in of.chosen.component) },
    ghost steps_each: { length steps.now ≡ count (component_in of.chosen.component) },
}

/// What is earned, less the gain for each step.
fn bias(gain: &Frac, x: &Frac, y: &Frac) -> Result<Frac, Wide>
    ensures { result_ok result ≡ written_bias gain.now x.now y.now }
{
    let paid = gain.mul(y)?;
    x.sub(&paid)
}

impl Columns<'_> {
    ghost use Rattle.mdp_gain.specs.Policies.{under, ratio_in, bias_in, bias_list_in, biases_in};

    /// What is earned on a way from the reference back to it, by the number of its steps.
    fn ratio(&self) -> Result<Frac, Wide>
        requires { of_int (pos 1) ≤ℚ of_int (pos 1) +ℚ mean (under self.now.of.chosen row_by self.now.of.t) (value_at self.now.steps.now) }
        ensures { result_ok result ≡ ratio_in self.now }
    {
        let t = self.of.t;
        let choice = self.of.chosen.policy[t as usize];
        let row = self.of.chosen.component.row(t, choice);
        let reward = self.of.chosen.component.reward(t, choice);
        let earned = row.sum(&reward, self.earned)?;
        let steps = row.sum(&Frac::whole(1), self.steps)?;
        earned.div(&steps)
    }

    /// The bias of state `s` to a gain: 0 at the reference and outside the component.
    fn bias_at(&self, gain: &Frac, s: u32) -> Result<Frac, RoundError>
        requires { s < count (component_in self.now.of.chosen.component) }
        ensures { Answers (λ bias. bias) result (bias_in self.now gain.now s) }
    {
        if !self.of.chosen.component.is_active(self.of.t, s) {
            return Ok(Frac::whole(0));
        }
        let bias = bias(gain, &self.earned[s as usize], &self.steps[s as usize]);
        at_node(bias, self.of.chosen.policy, s)
    }

    /// The biases to a gain.
    fn biases(&self, alloc: Global, gain: &Frac) -> Result<Vec<Frac>, RoundError>
        ensures { Answers (λ biases. biases.items) result (bias_list_in self.now gain.now) }
    {
        let mut biases = Vec::new(alloc);
        for s in 0..self.of.chosen.component.count() {
            let bias = self.bias_at(gain, s)?;
            biases.push(bias)?;
        }
        Ok(biases)
    }

    /// The gain and the biases.
    fn values(&self, alloc: Global) -> Result<Values, RoundError>
        requires { of_int (pos 1) ≤ℚ of_int (pos 1) +ℚ mean (under self.now.of.chosen row_by self.now.of.t) (value_at self.now.steps.now) }
        ensures value { Answers values_in result (biases_in self.now) }
        ensures count { IfOk result (λ values. length values.bias.items ≡ count (component_in self.now.of.chosen.component)) }
    {
        let gain = at_node(self.ratio(), self.of.chosen.policy, self.of.t)?;
        let bias = self.biases(alloc, &gain)?;
        Ok(Values { gain, bias })
    }
}

impl Referred<'_> {
    ghost use Rattle.mdp_gain.specs.Policies.{under};

    /// What the policy earns at each state, and one step there.
    fn sides(&self, alloc: Global) -> Result<Vec<Vec<Frac>>, AllocError>
        ensures columns { IfOk result (λ sides. map (λ x. x.items) sides.items ≡ under self.now.chosen columns_of) }
        ensures count { IfOk result (λ sides. length sides.items ≡ 2) }
    {
        let rewards = self.chosen.rewards(alloc)?;
        let steps = self.chosen.component.steps(alloc)?;
        let sides = vec![in alloc; rewards, steps]?;
        Ok(sides)
    }

    /// What is earned from each state until the reference, and the number of steps.
    fn columns(&self, alloc: Global) -> Result<Vec<Vec<Frac>>, RoundError>
        requires given { HasEnds self.now.chosen.component }
        requires leads { AllLeadTo (is_state (component_in self.now.chosen.component)) (under self.now.chosen row_by) self.now.t }
        ensures value { Answers (λ columns. map (λ x. x.items) columns.items) result (under self.now.chosen written_columns self.now.t) }
        ensures count { IfOk result (λ columns. length columns.items ≡ 2) }
        ensures lengths { IfOk result (λ columns. All (λ x. length x.items ≡ count (component_in self.now.chosen.component)) columns.items) }
    {
        let rows = PolicyRows {
            model: self.chosen.component.model,
            policy: self.chosen.policy,
        };
        let active = self.chosen.component.active_states(alloc, self.t)?;
        let sides = self.sides(alloc)?;
        match solve_leaving(alloc, &rows, &active, &sides) {
            Ok(solutions) => Ok(solutions),
            Err(ElimError::TooWide(state)) => Err(RoundError::TooWide(NodePlace {
                kind: Kind::Evaluate,
                node: state,
                choice: self.chosen.policy[state as usize],
            })),
            Err(ElimError::Memory) => Err(RoundError::Memory),
        }
    }

    /// The gain and the biases of the policy, or the first place at which a written term is past width.
    pub(crate) fn evaluate(&self, alloc: Global) -> Result<Values, RoundError>
        requires given { HasEnds self.now.chosen.component }
        requires leads { AllLeadTo (is_state (component_in self.now.chosen.component)) (under self.now.chosen row_by) self.now.t }
        ensures value { Answers values_in result (under self.now.chosen written_values self.now.t) }
        ensures count { IfOk result (λ values. length values.bias.items ≡ count (component_in self.now.chosen.component)) }
    {
        solution_law();
        let found = self.columns(alloc)?;
        let columns = Columns {
            of: *self,
            earned: &found[0],
            steps: &found[1],
        };
        columns.values(alloc)
    }
}
