ghost use Rattle.std.specs.{Prelude.{◌≡◌, ◌<◌, length, All}, Result.{result_ok}};
ghost use Rattle.mdp_spec.specs.{Mdp.{states_of, choices_at}, Row.{entries}};
ghost use Rattle.mdp_farkas.specs.{Bellman.{stands, sum_stands}, Verdict.{at_choice, objection_to}};

use crate::compare::{at_least, at_most};
use crate::reach::reversed;
use crate::verdict::judged;
use crate::walk::OneCheck;
use mdp_claims::{Objection, Rule};
use mdp_num::{Frac, Wide};
use mdp_rows::{Dir, Model, Row};

/// Whether a value is at least, or for the least values at most, a sum.
pub fn value_stands(dir: Dir, value: &Frac, sum: &Frac) -> Result<bool, Wide>
    ensures { result_ok result ≡ stands dir value.now sum.now }
{
    match dir {
        Dir::Max => at_least(value, sum),
        Dir::Min => at_most(value, sum),
    }
}

/// Whether a value is at least, or for the least values at most, `start` and the sum over the row.
pub(crate) fn row_stands(
    row: Row<'_>,
    dir: Dir,
    value: &Frac,
    start: &Frac,
    values: &[Frac],
) -> Result<bool, Wide>
    requires { All (λ t. t < length values.now) row.targets.now }
    ensures { result_ok result ≡ sum_stands dir value.now values.now start.now (entries row.entry.targets.now row.entry.probs.now) }
{
    let sum = row.sum(start, values)?;
    value_stands(dir, value, &sum)
}

/// A number for each state, held against the rows of a state of a model.
#[derive(Clone, Copy)]
pub(crate) struct Held<'a> {
    pub dir: Dir,
    pub model: &'a Model,
    pub values: &'a [Frac],
    pub rule: Rule,
    pub state: u32,
    pub ghost one_each: { length values.now ≡ states_of model.now },
    pub ghost in_model: { state < states_of model.now },
}

impl OneCheck for Held<'_> {
    ghost use Rattle.mdp_farkas.specs.ReachClaim.{row_stands};

    ghost count = { λ h. length (choices_at h.model.now h.state) };

    ghost check = { λ h c. at_choice h.rule h.state c (row_stands h.dir h c) };

    /// Bellman's inequality at choice `c`, as the rule asks it.
    fn check_at(self, c: u32) -> Result<(), Objection> {
        judged(self.stands(self.dir, c), self.rule, self.state, Some(c))
    }
}

impl Held<'_> {
    ghost use Rattle.mdp_farkas.specs.ReachClaim.{row_stands, policy_checks};

    /// Whether the value is at least, or for the least values at most, the sum over the row of choice `c`.
    fn stands(self, dir: Dir, c: u32) -> Result<bool, Wide>
        requires { c < length (choices_at self.model.now self.state) }
        ensures { result_ok result ≡ row_stands dir self.entry c }
    {
        row_stands(
            self.model.row(self.state, c),
            dir,
            &self.values[self.state as usize],
            &Frac::whole(0),
            self.values,
        )
    }

    /// The inequality the other way round, for the choice of the policy.
    pub(crate) fn meets_on_policy(self, choice: u32) -> Result<(), Objection>
        requires { choice < length (choices_at self.model.now self.state) }
        ensures { result ≡ objection_to (policy_checks self.entry choice) }
    {
        judged(
            self.stands(reversed(self.dir), choice),
            Rule::ValueOnPolicy,
            self.state,
            Some(choice),
        )
    }
}
