ghost use Rattle.std.specs.Prelude.{◌≡◌, ◌<◌, length, IfOk, Ok};
ghost use Rattle.mdp_spec.specs.Mdp.{states_of};
ghost use Rattle.mdp_elim.specs.System.{Leaves};
ghost use Rattle.mdp_reach.specs.Query.{policy_rows};
ghost use Rattle.mdp_witness.specs.{Evaluation.{Visits, visited, visited_value}, EvaluationCode.{plain}, StepCode.{IsStep}, Trial.{AreLeft}};

use crate::trial::Trial;
use crate::visited::{Policy, Visited};
use mdp_elim::ElimError;
use mdp_num::{Frac, Memory};
use mdp_rows::Marks;
use std::alloc::Global;

/// What the trials for the greatest probability leave: the states that stay, those of them that are marked as wide, and the evaluation of the
/// set that is left.
#[derive(Drop)]
pub struct MaxLeft {
    /// Whether each state stays, one mark per state.
    pub kept: Marks,
    /// Whether a term was past width in its trial, one mark per state.
    pub wide: Marks,
    /// The evaluation of the states that stay.
    pub last: Visited,
}

impl Policy<'_, '_, '_, '_> {
    /// Tries the set `kept` without state `s`, by one evaluation: `s` goes where the value is still at least `threshold`, else it stays; and it
    /// stays marked in `wide` where a term is past width. Answers the evaluation of the set that is left; `last` is that of `kept`. Fails where
    /// memory is refused.
    pub fn try_state(
        &self,
        alloc: Global,
        threshold: &Frac,
        s: u32,
        kept: &mut Marks,
        wide: &mut Marks,
        last: Visited,
    ) -> Result<Visited, Memory>
        requires state { s < states_of self.now.model.now }
        requires kept { length kept.old ≡ states_of self.now.model.now }
        requires wide { length wide.old ≡ states_of self.now.model.now }
        requires leaves { Leaves (policy_rows self.now.model.now self.now.choices.now) kept.old self.now.ranks.now }
        ensures step { IfOk result (λ next. IsStep (Visits self.now.model.now self.now.goals.now self.now.choices.now self.now.start) visited_value
            threshold.now s kept.old wide.old
            (plain last) kept.new wide.new (plain next)) }
    {
        kept.set(s, false);
        match self.evaluate(alloc, kept) {
            Ok(found) => {
                let trial = Trial::of(&found.value, threshold);
                trial.mark(s, kept, wide);
                match trial {
                    Trial::Goes => Ok(found),
                    Trial::Needed | Trial::PastWidth => Ok(last),
                }
            }
            Err(ElimError::TooWide(_)) => {
                Trial::PastWidth.mark(s, kept, wide);
                Ok(last)
            }
            Err(ElimError::Memory) => Err(Memory),
        }
    }

    /// Tries the states of `first` from the greatest to the least, each by one evaluation. `found` is the evaluation of `first`. Fails where
    /// memory is refused.
    pub fn trials(
        &self,
        alloc: Global,
        threshold: &Frac,
        first: Marks,
        found: Visited,
    ) -> Result<MaxLeft, Memory>
        requires first { length first ≡ states_of self.now.model.now }
        requires leaves { Leaves (policy_rows self.now.model.now self.now.choices.now) first self.now.ranks.now }
        requires found { visited self.now.model.now self.now.goals.now self.now.choices.now self.now.start first ≡ Ok (plain found) }
        ensures left { IfOk result (λ left. AreLeft (Visits self.now.model.now self.now.goals.now self.now.choices.now self.now.start) visited_value
            threshold.now first left.kept
            left.wide (plain left.last)) }
    {
        let mut kept = first;
        let mut wide = Marks::empty(alloc, self.model.states())?;
        let mut last = found;
        for s in (0..self.model.states()).rev() {
            if kept.at(s) {
                last = self.try_state(alloc, threshold, s, &mut kept, &mut wide, last)?;
            }
        }
        Ok(MaxLeft { kept, wide, last })
    }
}
