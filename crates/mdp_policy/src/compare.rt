ghost use Rattle.std.specs.Prelude.{◌≡◌, ◌<◌, length, Some, None, IfOk, IfErr};
ghost use Rattle.mdp_spec.specs.Mdp.{states_of, choices_at};
ghost use Rattle.mdp_policy.specs.{Choices.{sum_of_choice, compared}, Written.{taken_at, change_at, best_of, first_change}};
ghost use Rattle.mdp_policy_iteration.specs.{Faults.{Answers}, Code.{shown}};

use crate::value::Change;
use mdp_num::{Frac, Wide};
use mdp_policy_iteration::{Leader, RoundError, at_choice, judged};
use mdp_rows::{Dir, Marks, Model};

/// The values of a policy, to be compared with what the choices of each state are worth.
#[derive(Clone, Copy)]
pub(crate) struct Comparison<'m, 'v> {
    pub dir: Dir,
    pub model: &'m Model,
    pub goals: &'m Marks,
    pub values: &'v [Frac],
    ghost goals_each: { length goals.now ≡ states_of model.now },
    ghost values_each: { length values.now ≡ states_of model.now },
}

/// The change at state `s`, where a choice is taken there.
fn change_at(s: u32, choice: Option<u32>) -> Option<Change>
    ensures { result ≡ change_at s choice }
{
    match choice {
        Some(choice) => Some(Change { state: s, choice }),
        None => None,
    }
}

impl Comparison<'_, '_> {
    ghost use Rattle.mdp_policy.specs.Queries.{for_values, for_goals};

    /// The sum of choice `c` of state `s`.
    fn sum(self, s: u32, c: u32) -> Result<Frac, Wide>
        requires state { s < states_of self.model.now }
        requires choice { c < length (choices_at self.model.now s) }
        ensures value { IfOk result (λ sum. sum_of_choice self.entry.model.now self.entry.values.now s c ≡ Some sum) }
        ensures wide { IfErr result (λ _. sum_of_choice self.entry.model.now self.entry.values.now s c ≡ None) }
    {
        self.model.row(s, c).sum(&Frac::whole(0), self.values)
    }

    /// The leader after choice `c` of state `s` has been summed up and compared with it.
    fn compared(self, s: u32, c: u32, leader: Leader) -> Result<Leader, Wide>
        requires state { s < states_of self.model.now }
        requires choice { c < length (choices_at self.model.now s) }
        ensures value { IfOk result (λ next. for_values self.entry compared s c (shown leader) ≡ Some (shown next)) }
        ensures wide { IfErr result (λ _. for_values self.entry compared s c (shown leader) ≡ None) }
    {
        let sum = self.sum(s, c)?;
        judged(self.dir, c, leader, sum)
    }

    /// The leader after all choices of state `s`, from the state's own value on.
    fn best(self, s: u32) -> Result<Leader, RoundError>
        requires { s < states_of self.model.now }
        ensures { Answers shown result (for_values self.entry best_of s (length (choices_at self.entry.model.now s))) }
    {
        let mut leader = Leader {
            value: self.values[s as usize],
            choice: None,
        };
        for c in 0..self.model.choices(s) {
            leader = at_choice(self.compared(s, c, leader), s, c)?;
        }
        Ok(leader)
    }

    /// The choice that is taken at state `s`, where it is no goal and one is.
    fn taken(self, s: u32) -> Result<Option<u32>, RoundError>
        requires { s < states_of self.model.now }
        ensures { Answers (λ choice. choice) result (for_goals self.entry taken_at s) }
    {
        if self.goals.at(s) {
            return Ok(None);
        }
        let leader = self.best(s)?;
        Ok(leader.choice)
    }

    /// The first state at which a choice is taken, and the choice.
    pub(crate) fn first_change(self) -> Result<Option<Change>, RoundError>
        ensures { Answers (λ change. change) result (for_goals self.entry first_change (states_of self.entry.model.now)) }
    {
        for s in 0..self.model.states() {
            let change = change_at(s, self.taken(s)?);
            if change.is_some() {
                return Ok(change);
            }
        }
        Ok(None)
    }
}
