ghost use Rattle.std.specs.Prelude.{◌≡◌, ◌<◌, length, Some, None, IfOk, IfErr};
ghost use Rattle.mdp_policy_iteration.specs.{Candidates.{judged}, Path.{or_kept}, Code.{shown}, Faults.{Answers}};
ghost use Rattle.mdp_unichain.specs.{Component.{count, choices_at}, Written.{improved_choice, improved_at, written_improved}};
ghost use Rattle.mdp_gain.specs.{Code.{component_in, values_in, choice_over, compared_in}, Policies.{under}};

use crate::chosen::Chosen;
use crate::component::EndComponent;
use crate::values::Values;
use mdp_num::{Frac, Wide};
use mdp_policy_iteration::{Leader, RoundError, at_choice, judged};
use mdp_rows::ValuesOf;
use std::alloc::Global;

/// The choice that is taken, or the one that is kept.
fn or_kept(choice: Option<u32>, kept: u32) -> u32
    ensures { result ≡ or_kept choice kept }
{
    match choice {
        Some(taken) => taken,
        None => kept,
    }
}

impl EndComponent<'_> {
    /// The leader after choice `c` of state `s` has been compared with it, under these biases.
    fn compared<V: ValuesOf>(&self, bias: &V, s: u32, c: u32, best: Leader) -> Result<Leader, Wide>
        requires state { s < count (component_in self.now) }
        requires choice { c < length (choices_at (component_in self.now) s) }
        requires bias { length (V.values bias.now) ≡ count (component_in self.now) }
        ensures value { IfOk result (λ next. compared_in self.now (V.values bias.now) s c (shown best) ≡ Some (shown next)) }
        ensures wide { IfErr result (λ _. compared_in self.now (V.values bias.now) s c (shown best) ≡ None) }
    {
        if !self.is_inner(s, c) {
            return Ok(best);
        }
        let sum = self.row(s, c).sum_over(&self.reward(s, c), bias)?;
        judged(self.dir, c, best, sum)
    }

    /// The choice of state `s` that is best where it is better than `present` under these biases, or `kept`.
    pub(crate) fn choice_over<V: ValuesOf>(
        &self,
        bias: &V,
        s: u32,
        kept: u32,
        present: Frac,
    ) -> Result<u32, RoundError>
        requires state { s < count (component_in self.now) }
        requires bias { length (V.values bias.now) ≡ count (component_in self.now) }
        ensures { Answers (λ c. c) result (choice_over (component_in self.now) (V.values bias.now) s kept present) }
    {
        let mut best = Leader {
            value: present,
            choice: None,
        };
        for c in 0..self.choices(s) {
            best = at_choice(self.compared(bias, s, c, best), s, c)?;
        }
        Ok(or_kept(best.choice, kept))
    }
}

/// A policy with its gain and biases.
#[derive(Clone, Copy)]
pub(crate) struct Valued<'a> {
    pub(crate) chosen: Chosen<'a>,
    pub(crate) values: &'a Values,
    pub(crate) ghost each: { length values.now.bias.items ≡ count (component_in chosen.component) },
}

impl Valued<'_> {
    /// The improved policy's choice at a state of the component.
    fn improved_choice(&self, s: u32) -> Result<u32, RoundError>
        requires { s < count (component_in self.now.chosen.component) }
        ensures { Answers (λ c. c) result (under self.now.chosen improved_choice (values_in self.now.values.now) s) }
    {
        let kept = self.chosen.policy[s as usize];
        let sum = self.values.gain.add(&self.values.bias[s as usize]);
        let present = at_choice(sum, s, kept)?;
        self.chosen
            .component
            .choice_over(self.values, s, kept, present)
    }

    /// The improved policy's choice at state `s`: 0 outside the component.
    fn improved_at(&self, s: u32) -> Result<u32, RoundError>
        requires { s < count (component_in self.now.chosen.component) }
        ensures { Answers (λ c. c) result (under self.now.chosen improved_at (values_in self.now.values.now) s) }
    {
        if !self.chosen.component.holds(s) {
            return Ok(0);
        }
        self.improved_choice(s)
    }

    /// The improved policy: at each state of the component the best choice, where it is better than what the policy has.
    pub(crate) fn improved(&self, alloc: Global) -> Result<Vec<u32>, RoundError>
        ensures { Answers (λ policy. policy.items) result (under self.now.chosen written_improved (values_in self.now.values.now)) }
    {
        let mut choices = Vec::new(alloc);
        for s in 0..self.chosen.component.count() {
            let choice = self.improved_at(s)?;
            choices.push(choice)?;
        }
        Ok(choices)
    }
}
