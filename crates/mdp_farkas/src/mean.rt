ghost use Rattle.std.specs.{Prelude.{◌≡◌, ◌<◌, ◌↔◌, length, slice_index, [], ◌∷◌, ◌++◌}, Result.{result_ok}};
ghost use Rattle.mdp_spec.specs.{Mdp.{states_of, choices_at}, Bounds.{MeanMax, MeanMin}};
ghost use Rattle.mdp_farkas.specs.Mean.{written_step, keeps_gain, earns_gain, spread_check, mean_checks_at, mean_checks, IsMean};
ghost use Rattle.mdp_farkas.specs.Verdict.{objection_to, verdict_of, IsYes, IfYes};
ghost use Rattle.mdp_rows.specs.declared.dir.Dir.TheVariants.{Max, Min};

use crate::bellman::{Held, row_stands};
use crate::compare::equal;
use crate::reach::choice_at;
use crate::spread::spread_of;
use crate::verdict::{judged, judged_at, verdict_after};
use crate::walk::{Checks, OneCheck, each_below, each_choice};
use mdp_claims::{MeanCert, Objection, Rule, Verdict};
use mdp_num::{Frac, Wide};
use mdp_rows::{Dir, Model};

/// Gains, a policy and two relative values that are held against a model.
#[derive(Clone, Copy)]
struct MeanClaim<'a> {
    dir: Dir,
    model: &'a Model,
    name: u32,
    gains: &'a [Frac],
    bound: &'a [Frac],
    bias: &'a [Frac],
    choices: &'a [u32],
    ghost named: { name < length model.now.names },
    ghost gains_each: { length gains.now ≡ states_of model.now },
    ghost bound_each: { length bound.now ≡ states_of model.now },
    ghost bias_each: { length bias.now ≡ states_of model.now },
    ghost choices_each: { length choices.now ≡ states_of model.now },
}

impl Checks for MeanClaim<'_> {
    ghost count = { λ x. states_of x.model.now };

    ghost checks = { λ x s. mean_checks_at x.dir x.model.now x.name x.gains.now x.bound.now x.bias.now s (slice_index x.choices.now s) };

    /// The rules at state `s`.
    fn check(self, s: u32) -> Result<(), Objection> {
        let choice = self.choices[s as usize];
        choice_at(self.model, s, choice)?;
        self.rules_at(s, choice)
    }
}

/// The same at one state.
#[derive(Clone, Copy)]
struct MeanAtState<'a> {
    claim: MeanClaim<'a>,
    state: u32,
    ghost in_model: { state < states_of claim.model.now },
}

impl OneCheck for MeanAtState<'_> {
    ghost use Rattle.mdp_farkas.specs.MeanClaim.{bound_at};

    ghost count = { λ x. length (choices_at x.claim.model.now x.state) };

    ghost check = { λ x. bound_at x.claim x.state };

    /// The bound at choice `c`.
    fn check_at(self, c: u32) -> Result<(), Objection> {
        let stands = self.claim.bound_stands(self.state, c);
        judged(stands, Rule::BoundOnEachChoice, self.state, Some(c))
    }
}

/// The gain and a relative value of state `s` together.
fn step_at(gains: &[Frac], relative: &[Frac], s: u32) -> Result<Frac, Wide>
    requires gains { s < length gains.now }
    requires relative { s < length relative.now }
    ensures { result_ok result ≡ written_step gains.now relative.now s }
{
    gains[s as usize].add(&relative[s as usize])
}

impl MeanClaim<'_> {
    ghost use Rattle.mdp_farkas.specs.MeanClaim.{gains_at, bound_at, bounds_at, policy_at, rules_at, each_state};

    /// The gain of state `s` is at least, or for the least mean payoff at most, the sum of the gains over the row of each choice.
    fn gains_at(self, s: u32) -> Result<(), Objection>
        requires { s < states_of self.model.now }
        ensures { result ≡ objection_to (gains_at self.entry s) }
    {
        let held = Held {
            dir: self.dir,
            model: self.model,
            values: self.gains,
            rule: Rule::GainOnEachChoice,
            state: s,
        };
        each_choice(self.model, s, held)
    }

    /// Whether the gain and the bound of state `s` together are at least, or for the least mean payoff at most, what its choice `c` earns by the
    /// bound: its reward and the sum over its row.
    fn bound_stands(self, s: u32, c: u32) -> Result<bool, Wide>
        requires state { s < states_of self.model.now }
        requires choice { c < length (choices_at self.model.now s) }
        ensures { result_ok result ≡ (bound_at self.entry s c).holds }
    {
        let step = step_at(self.gains, self.bound, s)?;
        let reward = self.model.reward(self.name, s, c);
        row_stands(self.model.row(s, c), self.dir, &step, &reward, self.bound)
    }

    /// The bound at each choice of state `s`.
    fn bounds_at(self, s: u32) -> Result<(), Objection>
        requires { s < states_of self.model.now }
        ensures { result ≡ objection_to (bounds_at self.entry s) }
    {
        let at = MeanAtState {
            claim: self,
            state: s,
        };
        each_choice(self.model, s, at)
    }

    /// Whether the gain of state `s` is the sum of the gains over the row of its choice `c`.
    fn keeps_gain(self, s: u32, c: u32) -> Result<bool, Wide>
        requires state { s < states_of self.model.now }
        requires choice { c < length (choices_at self.model.now s) }
        ensures { result_ok result ≡ keeps_gain self.entry.model.now self.entry.gains.now s c }
    {
        let sum = self.model.row(s, c).sum(&Frac::whole(0), self.gains)?;
        equal(&self.gains[s as usize], &sum)
    }

    /// Whether the gain and the bias of state `s` together are what its choice `c` earns by the bias.
    fn earns_gain(self, s: u32, c: u32) -> Result<bool, Wide>
        requires state { s < states_of self.model.now }
        requires choice { c < length (choices_at self.model.now s) }
        ensures { result_ok result ≡ earns_gain self.entry.model.now self.entry.name self.entry.gains.now self.entry.bias.now s c }
    {
        let step = step_at(self.gains, self.bias, s)?;
        let reward = self.model.reward(self.name, s, c);
        let sum = self.model.row(s, c).sum(&reward, self.bias)?;
        equal(&step, &sum)
    }

    /// The policy's choice keeps the gain of state `s`, and earns it in each step.
    fn policy_at(self, s: u32, choice: u32) -> Result<(), Objection>
        requires state { s < states_of self.model.now }
        requires choice { choice < length (choices_at self.model.now s) }
        ensures { result ≡ objection_to (policy_at self.entry s choice) }
    {
        judged(
            self.keeps_gain(s, choice),
            Rule::GainOnPolicy,
            s,
            Some(choice),
        )?;
        judged(
            self.earns_gain(s, choice),
            Rule::BiasOnPolicy,
            s,
            Some(choice),
        )
    }

    /// The rules for gain, bound and bias of state `s`.
    #[tactic(auto, using(crate::proofs::Objections::walked))]
    fn rules_at(self, s: u32, choice: u32) -> Result<(), Objection>
        requires state { s < states_of self.model.now }
        requires choice { choice < length (choices_at self.model.now s) }
        ensures { result ≡ objection_to (rules_at self.entry s choice) }
    {
        self.gains_at(s)?;
        self.bounds_at(s)?;
        self.policy_at(s, choice)
    }

    /// All rules: those at each state, and that of the spread.
    fn walk(self, spread: &Frac) -> Result<(), Objection>
        ensures { result ≡ objection_to (each_state self.entry ++ spread_check self.entry.bound.now self.entry.bias.now spread.now ∷ []) }
    {
        each_below(self.model.states(), self)?;
        let holds = spread_holds(self.bound, self.bias, spread);
        judged_at(holds, Rule::SpreadIsGreatest, None, None)
    }
}

/// Whether the spread is that of bounds and biases.
fn spread_holds(bound: &[Frac], bias: &[Frac], spread: &Frac) -> Result<bool, Wide>
    ensures { result_ok result ≡ (spread_check bound.now bias.now spread.now).holds }
{
    let widest = spread_of(bound, bias)?;
    equal(spread, &widest)
}

/// Whether the gains are the greatest, or the least, mean payoffs of the reward name of place `m`, and the policy one that earns them: what
/// rules 2 and 16 to 20 say of the gains, the bound, the bias, the spread and the policy. Yes, the first rule that is false with its place,
/// or the place of the first written term past width where that comes before; the rule of the spread has no place. It takes no memory.
pub fn holds_mean(model: &Model, m: u32, dir: Dir, cert: &MeanCert) -> Verdict
    requires name { m < length model.now.names }
    requires gains { length cert.now.gains.items ≡ states_of model.now }
    requires bound { length cert.now.bound.items ≡ states_of model.now }
    requires bias { length cert.now.bias.items ≡ states_of model.now }
    requires choices { length cert.now.choices.items ≡ states_of model.now }
    ensures verdict { result
        ≡ verdict_of (mean_checks dir model.now m cert.now.gains.items cert.now.bound.items cert.now.bias.items cert.now.spread
        cert.now.choices.items) }
    ensures rules { IsYes result
        ↔ IsMean dir model.now m cert.now.gains.items cert.now.bound.items cert.now.bias.items cert.now.spread cert.now.choices.items }
    ensures max { dir ≡ Max → IfYes result (MeanMax model.now m cert.now.gains.items cert.now.spread cert.now.choices.items) }
    ensures min { dir ≡ Min → IfYes result (MeanMin model.now m cert.now.gains.items cert.now.spread cert.now.choices.items) }
{
    model.known();
    let claim = MeanClaim {
        dir,
        model,
        name: m,
        gains: cert.gains.as_slice(),
        bound: cert.bound.as_slice(),
        bias: cert.bias.as_slice(),
        choices: cert.choices.as_slice(),
    };
    verdict_after(claim.walk(&cert.spread))
}
