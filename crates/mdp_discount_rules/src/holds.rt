ghost use Rattle.std.specs.{Prelude.{◌≡◌, ◌<◌, ◌↔◌, length, slice_index}, Result.{result_ok}};
ghost use Rattle.mdp_spec.specs.Mdp.{states_of, choices_at};
ghost use Rattle.mdp_farkas.specs.Verdict.{objection_to, verdict_of, IsYes, IfYes};
ghost use Rattle.mdp_discount_rules.specs.Bounds.{DiscountBound};
ghost use Rattle.mdp_discount_rules.specs.Checks.{remainder_check, discount_checks, IsDiscount};

use crate::cert::DiscountCert;
use crate::earning::earned;
use crate::remainder::greatest_magnitude;
use mdp_farkas::{
    Checks, Objection, OneCheck, Rule, Verdict, choice_at, each_below, each_choice, equal, judged,
    judged_at, value_stands, verdict_after,
};
use mdp_num::{Frac, Wide};
use mdp_rows::{Dir, Model};

/// Values, a policy and a remainder that are held against a model.
#[derive(Clone, Copy)]
struct DiscountClaim<'a> {
    dir: Dir,
    model: &'a Model,
    name: u32,
    factor: &'a Frac,
    values: &'a [Frac],
    choices: &'a [u32],
    ghost named: { name < length model.now.names },
    ghost values_each: { length values.now ≡ states_of model.now },
    ghost choices_each: { length choices.now ≡ states_of model.now },
}

impl Checks for DiscountClaim<'_> {
    ghost use Rattle.mdp_discount_rules.specs.Claim.{rules_at};

    ghost count = { λ x. states_of x.model.now };

    ghost checks = { λ x s. rules_at x s (slice_index x.choices.now s) };

    /// The rules at state `s`.
    fn check(self, s: u32) -> Result<(), Objection> {
        self.state_at(s, self.choices[s as usize])
    }
}

/// The value of one state, which is held against what its choices earn.
#[derive(Clone, Copy)]
struct DiscountAtState<'a> {
    claim: DiscountClaim<'a>,
    state: u32,
    ghost in_model: { state < states_of claim.model.now },
}

impl OneCheck for DiscountAtState<'_> {
    ghost use Rattle.mdp_discount_rules.specs.Claim.{covers_at};

    ghost count = { λ x. length (choices_at x.claim.model.now x.state) };

    ghost check = { λ x. covers_at x.claim x.state };

    /// The value against choice `c`.
    fn check_at(self, c: u32) -> Result<(), Objection> {
        let covers = self.claim.covers(self.state, c);
        judged(covers, Rule::DiscountedOnEachChoice, self.state, Some(c))
    }
}

impl DiscountClaim<'_> {
    ghost use Rattle.mdp_discount_rules.specs.Claim.{covers_at, reached_at, rules_at, all_checks};

    /// Whether the value of state `s` is at least, or for the least reward at most, what its choice `c` earns.
    fn covers(self, s: u32, c: u32) -> Result<bool, Wide>
        requires state { s < states_of self.model.now }
        requires choice { c < length (choices_at self.model.now s) }
        ensures { result_ok result ≡ (covers_at self.entry s c).holds }
    {
        let sum = earned(self.model, self.name, self.factor, s, c, self.values)?;
        value_stands(self.dir, &self.values[s as usize], &sum)
    }

    /// Whether the value of state `s` is what its choice `c` earns.
    fn is_reached(self, s: u32, c: u32) -> Result<bool, Wide>
        requires state { s < states_of self.model.now }
        requires choice { c < length (choices_at self.model.now s) }
        ensures { result_ok result ≡ (reached_at self.entry s c).holds }
    {
        let sum = earned(self.model, self.name, self.factor, s, c, self.values)?;
        equal(&self.values[s as usize], &sum)
    }

    /// The rules at state `s`, where the policy takes this choice.
    fn state_at(self, s: u32, choice: u32) -> Result<(), Objection>
        requires { s < states_of self.model.now }
        ensures { result ≡ objection_to (rules_at self.entry s choice) }
    {
        choice_at(self.model, s, choice)?;
        let covers = DiscountAtState {
            claim: self,
            state: s,
        };
        each_choice(self.model, s, covers)?;
        judged(
            self.is_reached(s, choice),
            Rule::DiscountedOnPolicy,
            s,
            Some(choice),
        )
    }

    /// All rules: those at each state, from 0 on, and that of the remainder.
    fn walk(self, remainder: &Frac) -> Result<(), Objection>
        ensures { result ≡ objection_to (all_checks self.entry remainder.now) }
    {
        each_below(self.model.states(), self)?;
        judged_at(
            is_greatest(remainder, self.values),
            Rule::RemainderIsGreatest,
            None,
            None,
        )
    }
}

/// Whether a remainder is the greatest magnitude of the values.
fn is_greatest(remainder: &Frac, values: &[Frac]) -> Result<bool, Wide>
    ensures { result_ok result ≡ (remainder_check values.now remainder.now).holds }
{
    let greatest = greatest_magnitude(values)?;
    equal(remainder, &greatest)
}

/// Whether the values are the greatest, or the least, discounted rewards of the reward name of place `m`, and the policy one that earns them: what
/// rules 2 and 26 to 28 say. Yes, the first rule that is false with its place, or the place of the first written term past width where that comes
/// before; the rule of the remainder has no place. It takes no memory.
pub fn holds_discount(model: &Model, m: u32, cert: &DiscountCert) -> Verdict
    requires name { m < length model.now.names }
    requires values { length cert.now.values.items ≡ states_of model.now }
    ensures verdict { result
        ≡ verdict_of (discount_checks cert.now.dir model.now m cert.now.factor cert.now.values.items cert.now.remainder cert.now.choices.items) }
    ensures rules { IsYes result
        ↔ IsDiscount cert.now.dir model.now m cert.now.factor cert.now.values.items cert.now.remainder cert.now.choices.items }
    ensures bound { IfYes result
        (DiscountBound cert.now.dir model.now m cert.now.factor cert.now.values.items cert.now.remainder cert.now.choices.items) }
{
    model.known();
    let claim = DiscountClaim {
        dir: cert.dir,
        model,
        name: m,
        factor: &cert.factor,
        values: cert.values.as_slice(),
        choices: cert.choices.as_slice(),
    };
    verdict_after(claim.walk(&cert.remainder))
}
