ghost use Rattle.std.specs.Prelude.{◌≡◌, ◌<◌, ◌↔◌, length, [], ◌∷◌};
ghost use Rattle.mdp_spec.specs.{Mdp.{states_of}, Bounds.{Above}};
ghost use Rattle.mdp_farkas.specs.Upper.{probability_checks, goal_check, upper_at, upper_checks, IsUpper};
ghost use Rattle.mdp_farkas.specs.Verdict.{objection_to, verdict_of, IsYes, IfYes};

use crate::bellman::Held;
use crate::compare::{at_least, at_most, equal};
use crate::verdict::{judged, verdict_after};
use crate::walk::{Checks, each_below, each_choice};
use mdp_claims::{Objection, Rule, UpperCert, Verdict};
use mdp_num::Frac;
use mdp_rows::{Dir, Marks, Model};

/// The value of state `s` is from 0 to 1.
pub(crate) fn probability_at(values: &[Frac], s: u32) -> Result<(), Objection>
    requires { s < length values.now }
    ensures { result ≡ objection_to (probability_checks values.now s) }
{
    let value = values[s as usize];
    judged(
        at_least(&value, &Frac::whole(0)),
        Rule::Probability,
        s,
        None,
    )?;
    judged(at_most(&value, &Frac::whole(1)), Rule::Probability, s, None)
}

/// The value of the goal `s` is 1.
pub(crate) fn goal_at(values: &[Frac], s: u32) -> Result<(), Objection>
    requires { s < length values.now }
    ensures { result ≡ objection_to (goal_check values.now s ∷ []) }
{
    judged(
        equal(&values[s as usize], &Frac::whole(1)),
        Rule::GoalValue,
        s,
        None,
    )
}

/// Values that are held against a model.
#[derive(Clone, Copy)]
struct UpperClaim<'a> {
    model: &'a Model,
    goals: &'a Marks,
    values: &'a [Frac],
    ghost goals_each: { length goals.now ≡ states_of model.now },
    ghost values_each: { length values.now ≡ states_of model.now },
}

impl Checks for UpperClaim<'_> {
    ghost count = { λ x. states_of x.model.now };

    ghost checks = { λ x. upper_at x.model.now x.goals.now x.values.now };

    /// The rules at state `s`.
    fn check(self, s: u32) -> Result<(), Objection> {
        probability_at(self.values, s)?;
        if self.goals.at(s) {
            goal_at(self.values, s)
        } else {
            let held = Held {
                dir: Dir::Max,
                model: self.model,
                values: self.values,
                rule: Rule::ValueOnEachChoice,
                state: s,
            };
            each_choice(self.model, s, held)
        }
    }
}

/// The rules at each state, from 0 on.
fn upper_at_states(model: &Model, goals: &Marks, values: &[Frac]) -> Result<(), Objection>
    requires goals { length goals.now ≡ states_of model.now }
    requires values { length values.now ≡ states_of model.now }
    ensures { result ≡ objection_to (upper_checks model.now goals.now values.now) }
{
    let claim = UpperClaim {
        model,
        goals,
        values,
    };
    each_below(model.states(), claim)
}

/// Whether the values are a Farkas certificate of upper bounds: what rules 3, 4 and 5 say of them. Yes, the first rule that is false with
/// its place, or the place of the first written term past width where that comes before. After yes no tree passes the values. It takes no
/// memory.
pub fn holds_upper(model: &Model, goals: &Marks, cert: &UpperCert) -> Verdict
    requires goals { length goals.now ≡ states_of model.now }
    requires values { length cert.now.values.items ≡ states_of model.now }
    ensures verdict { result ≡ verdict_of (upper_checks model.now goals.now cert.now.values.items) }
    ensures rules { IsYes result ↔ IsUpper model.now goals.now cert.now.values.items }
    ensures bound { IfYes result (Above model.now goals.now cert.now.values.items) }
{
    model.known();
    verdict_after(upper_at_states(model, goals, cert.values.as_slice()))
}
