ghost use Rattle.std.specs.Prelude.{◌≡◌, ◌<◌, length, IfOk, Ok};
ghost use Rattle.mdp_spec.specs.Mdp.{states_of, value_at};
ghost use Rattle.mdp_policy_iteration.specs.Queries.{Solves};
ghost use Rattle.mdp_reach.specs.Query.{plain};
ghost use Rattle.mdp_witness.specs.{LeastEvaluation.{Evaluates, value_from}, StepCode.{IsStep}, Trial.{AreLeft}};

use crate::trial::Trial;
use mdp_farkas::ReachCert;
use mdp_graph::avoid_law;
use mdp_num::{Frac, Memory};
use mdp_policy_iteration::path_law;
use mdp_reach::solve_reach;
use mdp_rows::{Dir, Marks, Model};
use mdp_wide::SolveError;
use std::alloc::Global;

/// The subsystems of a model that are searched for the least probability of reaching a goal from `start`.
#[derive(Clone, Copy)]
pub struct Subsystems<'m, 'g> {
    /// The model.
    pub model: &'m Model,
    /// Whether each state is a goal, one mark per state.
    pub goals: &'g Marks,
    /// Where the paths start, a state.
    pub start: u32,
    ghost goals_each: { length goals.now ≡ states_of model.now },
    ghost starts: { start < states_of model.now },
}

/// What the trials for the least probability leave: the states that stay, those of them that are marked as wide, and the answer to the query of
/// the subsystem that is left.
#[derive(Drop)]
pub struct MinLeft {
    /// Whether each state stays, one mark per state.
    pub kept: Marks,
    /// Whether a term was past width in its trial, one mark per state.
    pub wide: Marks,
    /// The least probabilities on the states that stay.
    pub last: ReachCert,
}

/// The value of state `s`.
fn value_of(values: &[Frac], s: u32) -> Frac
    requires { s < length values.now }
    ensures { result ≡ value_at values.now s }
{
    values[s as usize]
}

impl Subsystems<'_, '_> {
    /// The least probabilities on the subsystem of a set, one mark per state: the query of the model in which each state outside it that is no
    /// goal stays where it is. Fails as the query does: where a term is past width, and where memory is refused.
    pub fn evaluate(&self, alloc: Global, set: &Marks) -> Result<ReachCert, SolveError>
        requires set { length set.now ≡ states_of self.now.model.now }
        ensures found { Solves plain (Evaluates self.now.model.now self.now.goals.now set.now) result }
        ensures values { IfOk result (λ cert. length cert.values.items ≡ states_of self.now.model.now) }
        ensures ranks { IfOk result (λ cert. length cert.ranks.items ≡ states_of self.now.model.now) }
    {
        avoid_law();
        path_law();
        let cut = self.model.cut(alloc, set, self.goals)?;
        cut.known();
        solve_reach(alloc, &cut, self.goals, Dir::Min)
    }

    /// Tries the set `kept` without state `s`, by one query: `s` goes where the value is still at least `threshold`, else it stays; and it stays
    /// marked in `wide` where a term is past width. Answers the query of the set that is left; `last` is that of `kept`. Fails where memory is
    /// refused.
    pub fn try_state(
        &self,
        alloc: Global,
        threshold: &Frac,
        s: u32,
        kept: &mut Marks,
        wide: &mut Marks,
        last: ReachCert,
    ) -> Result<ReachCert, Memory>
        requires state { s < states_of self.now.model.now }
        requires kept { length kept.old ≡ states_of self.now.model.now }
        requires wide { length wide.old ≡ states_of self.now.model.now }
        ensures step { IfOk result (λ next. IsStep (Evaluates self.now.model.now self.now.goals.now)
            (value_from self.now.start) threshold.now s kept.old wide.old (plain last) kept.new
            wide.new (plain next)) }
    {
        kept.set(s, false);
        match self.evaluate(alloc, kept) {
            Ok(found) => {
                let value = value_of(&found.values, self.start);
                let trial = Trial::of(&value, threshold);
                trial.mark(s, kept, wide);
                match trial {
                    Trial::Goes => Ok(found),
                    Trial::Needed | Trial::PastWidth => Ok(last),
                }
            }
            Err(SolveError::TooWide(_)) => {
                Trial::PastWidth.mark(s, kept, wide);
                Ok(last)
            }
            Err(SolveError::Memory) => Err(Memory),
        }
    }

    /// Tries the states of `first` from the greatest to the least, each by one query. `found` is the answer to that of `first`. Fails where
    /// memory is refused.
    pub fn trials(
        &self,
        alloc: Global,
        threshold: &Frac,
        first: Marks,
        found: ReachCert,
    ) -> Result<MinLeft, Memory>
        requires first { length first ≡ states_of self.now.model.now }
        requires found { Evaluates self.now.model.now self.now.goals.now first (Ok (plain found)) }
        ensures left { IfOk result (λ left. AreLeft (Evaluates self.now.model.now self.now.goals.now)
            (value_from self.now.start) threshold.now first left.kept left.wide (plain left.last)) }
    {
        let mut kept = first;
        let mut wide = Marks::empty(alloc, self.model.states())?;
        let mut last = found;
        for s in (0..self.model.states()).rev() {
            if kept.at(s) {
                last = self.try_state(alloc, threshold, s, &mut kept, &mut wide, last)?;
            }
        }
        Ok(MinLeft { kept, wide, last })
    }
}
